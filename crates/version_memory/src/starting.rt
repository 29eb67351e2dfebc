//! The memory is one on which threads start others.
ghost use Rattle.std.specs.Prelude.{◌≡◌, ◌<◌, ◌≤◌};
ghost use Rattle.history.specs.Started.{child_of};
ghost use Rattle.version_rule.specs.StartWords.{start_word};

use crate::memory::VersionMemory;
use crate::passes::VersionPass;
use crate::starts::{start_child, wait_for_start};
use shared_memory::StartMemory;
use std::marker::Brand;
use std::sync::Wait;

impl VersionMemory {
    /// The number of the next thread that one of the first starts, which has started so many.
    fn child(&self, number: u32, started: u32) -> u32
        requires first { number < self.now.table.shared.key.first }
        requires few { started < self.now.table.shared.key.spare }
        ensures child { result ≡ child_of self.now.table.shared.key.first self.now.table.shared.key.spare number started }
        ensures below { result < self.now.table.shared.key.size.threads }
    {
        self.first + number * self.spare + started
    }

    /// The word of a thread that doesn't begin by itself.
    fn start_word(&self, child: u32) -> usize
        requires from { self.now.table.shared.key.first ≤ child }
        ensures { result ≡ start_word self.now.table.shared.key child }
    {
        let cells = (self.size.mem() / 8) as usize;
        1 + self.size.classes() as usize + cells + (child - self.first) as usize
    }
}

impl StartMemory for VersionMemory {
    fn spare(&self) -> u32 {
        self.spare
    }

    fn start(&self, pass: &mut VersionPass, entry: u32, arg: u32) -> u32 {
        let child = self.child(pass.number, pass.started);
        let word = self.start_word(child);
        start_child::<Brand>(&self.table.shared, &mut pass.seat, child, word, entry, arg);
        pass.started += 1;
        child
    }

    // It looks at its word, with pauses between, until it finds that its thread was started.
    fn enter<R: Wait>(&self, rt: &R, pass: &mut VersionPass) {
        let word = self.start_word(pass.number);
        wait_for_start::<R, Brand>(rt, &self.table.shared, &mut pass.seat, word);
    }
}
