//! The core of a guest thread that remembers words, so that the words of a loop are decoded once.
ghost use Rattle.std.specs.Prelude.{◌≡◌};

use crate::cpu::Cpu;
use crate::kept::Kept;
use crate::slot::Slot;
use guest_core::{Core, Passage, TryPort, Wanted};
use llsc_base::{CallAsk, Image};
use std::marker::Model;

/// How many words are remembered: the words of a loop of this many instructions, one after another.
const SLOTS: usize = 256;

/// A core that goes access by access and remembers words with their instructions, each in the slot of the address where it was
/// met last. Of a core that is moved often, or that knows its instructions otherwise, there is [`Cpu`], which is small.
#[derive(Drop)]
pub struct Remembering {
    cpu: Cpu,
    met: [Slot; SLOTS],
}

impl Model for Remembering {
    ghost use Rattle.a32_step.specs.Machine.{Machine};

    ghost Value = { Machine };

    ghost view = { λ core. core.cpu };
}

impl Remembering {
    /// A core that goes on as another one does. It remembers no word but NOP.
    pub fn new(cpu: Cpu) -> Remembering
        ensures { result ≡ cpu }
    {
        Remembering {
            cpu,
            met: [Slot::nop(); SLOTS],
        }
    }
}

impl Core for Remembering {
    type Ready = Kept;

    ghost use Rattle.a32_instr.specs.declared.instructions.Instr.{Instr as A32Instr};
    ghost use Rattle.a32_instr.specs.State.{State as A32State};
    ghost use Rattle.a32_step.specs.Machine.{a32};

    ghost Instr = { A32Instr };

    ghost State = { A32State };

    ghost set = { a32 };

    ghost machine = { λ m. m };

    fn start(entry: u32, t: u32, n: u32, sp: u32) -> Remembering {
        Remembering::new(Cpu::start(entry, t, n, sp))
    }

    #[inline(always)]
    fn pc(&self) -> u32 {
        self.cpu.pc()
    }

    #[inline(always)]
    fn carry<P: TryPort>(&mut self, kept: &Kept, image: &Image, port: &mut P) -> Passage {
        self.cpu.carry(kept, image, port)
    }

    #[inline(always)]
    fn next(&mut self, image: &Image) -> Wanted {
        let at = (self.cpu.pc() / 4) as usize % SLOTS;
        let slot = &mut self.met[at];
        self.cpu.next_by(image, slot)
    }

    #[inline(always)]
    fn give(&mut self, reply: u64) {
        self.cpu.give(reply);
    }

    fn asked_call(&self) -> CallAsk {
        self.cpu.asked_call()
    }

    fn answer(&mut self, value: u32) {
        self.cpu.answer(value);
    }

    #[inline(always)]
    fn is_between(&self) -> bool {
        self.cpu.is_between()
    }

    fn numbered(ask: &CallAsk) -> CallAsk {
        *ask
    }

    #[tactic(auto, using(crate::proofs::Tested::next_passes, crate::proofs::Tested::next_own))]
    fn is_sound() {}
}
