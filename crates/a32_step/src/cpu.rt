//! One guest thread's core.
ghost use Rattle.std.specs.Prelude.{◌≡◌, ◌≢◌, ◌≤◌, ◌%◌, ◌+◌, ◌^◌, length, slice_index, IfSome, IfNone, IsTrue, Ok, [], true};
ghost use Rattle.a32_instr.specs.declared.instructions.Instr.{Instr};
ghost use Rattle.a32_instr.specs.State.{answered};
ghost use Rattle.llsc_base.specs.inner.Words.{AreWords};
ghost use Rattle.guest_core.specs.inner.Passages.{in_hand, passage_of};
ghost use Rattle.guest_core.specs.Phase as phase;
ghost use Rattle.a32_step.specs.Machine.{start_of, next_effect, after_next, instr_at};
ghost use Rattle.llsc_base.specs.Words.{low32};
ghost use Rattle.a32_instr.specs.Condition.{passes};
ghost use Rattle.guest_core.specs.Passages.{IsHeldBack};
ghost use Rattle.a32_step.specs.RowActs.{IsLoweredOf};
ghost use Rattle.a32_step.specs.inner.Passages.{IsCarriedOn};
ghost use Rattle.a32_step.specs.inner.Machine.{after_instr, begins, HasBegun};
ghost use Rattle.guest_core.specs.Machine.{given, wanted_of, between, Follows, AwaitsNothing, IsHeld, IsTested, IsAwaiting, IsCalling};

use crate::execution::Execution;
use crate::kept::Kept;
use crate::phases::{Came, Point};
use crate::slot::Slot;
use crate::sources::Nobody;
use a32_instr::Flags;
use guest_core::{Passage, TryPort, Wanted};
use llsc_base::{CallAsk, Image};
use std::marker::Model;

/// The core of one guest thread: r0 to r14, the flags, the PC, and where it stands in its
/// instruction. Registers, flags and PC keep their values until an instruction is complete.
#[derive(Drop)]
pub struct Cpu {
    pub(crate) execution: Execution,
    /// The instruction in hand, and the word that it was decoded from.
    held: Slot,
    /// The span that served the last fetch.
    near: usize,
}

impl Model for Cpu {
    ghost use Rattle.a32_step.specs.Machine.{Machine};
    ghost use Rattle.a32_step.specs.inner.ExecutionState.{machine_in};

    ghost Value = { Machine };

    ghost view = { λ cpu. machine_in cpu.held.lowered.instr cpu.execution };
}

impl Cpu {
    /// The start of guest thread `t` of `n`: r0 is `t`, r1 is `n`, r13 is `sp`, all other registers
    /// are 0, all flags clear, and the PC is `entry`, a multiple of 4.
    #[tactic(auto, using(llsc_base::proofs::Words::words_none, llsc_base::proofs::Words::words_more))]
    pub fn start(entry: u32, t: u32, n: u32, sp: u32) -> Cpu
        requires { entry % 4 ≡ 0 }
        ensures { result ≡ start_of entry t n sp }
    {
        let regs = [t, n, 0, 0, 0, 0, 0, 0, 0, 0, 0, 0, 0, sp, 0];
        let flags = Flags {
            n: false,
            z: false,
            c: false,
            v: false,
        };
        Cpu {
            execution: Execution::new(regs, flags, entry),
            held: Slot::nop(),
            near: 0,
        }
    }

    /// Whether it is between two instructions.
    #[inline]
    #[tactic(auto, using(crate::proofs::ExecutionStates::is_resting))]
    pub fn is_between(&self) -> bool
        ensures rest { IsTrue result → self.now ≡ between self.now.state }
        ensures all { self.now ≡ between self.now.state → IsTrue result }
    {
        match self.execution.point() {
            Point::Between => true,
            Point::Inside | Point::Held => false,
        }
    }

    /// One of r0 to r14.
    pub fn reg(&self, i: u32) -> u32
        requires { i ≤ 14 }
        ensures { result ≡ slice_index self.now.state.regs i }
    {
        self.execution.reg(i)
    }

    /// The address of the instruction in hand, or of the next one.
    pub fn pc(&self) -> u32
        ensures pc { result ≡ self.now.state.pc }
        ensures aligned { result % 4 ≡ 0 }
    {
        self.execution.pc()
    }

    /// The condition flags.
    pub fn flags(&self) -> Flags
        ensures { result ≡ self.now.state.flags }
    {
        self.execution.flags()
    }

    /// The reply to the access that is awaited; one must be. Any number is taken. Of a load's reply
    /// as many of the low bits count as its place has: 8, 16, 32 or 64. Of a store-exclusive's the low
    /// 32 go to its status register: 0 says that it stored and 1 that it failed. Of a store's or a
    /// clear's none counts.
    #[tactic(auto, using(crate::proofs::ExecutionStates::is_awaited, crate::proofs::ExecutionStates::replied))]
    pub fn give(&mut self, reply: u64)
        requires { IsAwaiting self.old.phase }
        ensures state { self.new ≡ given self.old reply }
        ensures ready { AwaitsNothing self.new.phase }
        ensures one_more { length self.new.replies ≡ length self.old.replies + 1 }
        ensures room { length self.new.replies ≤ 16 }
    {
        self.execution.reply(reply);
    }

    /// The guest call whose answer is awaited; one must be.
    #[tactic(auto, using(crate::proofs::ExecutionStates::is_called, crate::proofs::ExecutionStates::called))]
    pub fn asked_call(&self) -> CallAsk
        requires { IsCalling self.now.phase }
        ensures { self.now.phase ≡ phase.Calling result }
    {
        self.execution.asked_call()
    }

    /// The answer of the guest call that is awaited: it goes to r0, and the call is over.
    pub fn answer(&mut self, r0: u32)
        requires { IsCalling self.old.phase }
        ensures { self.new ≡ between (answered self.old.state r0) }
    {
        self.execution.answer(r0);
    }
}

impl Cpu {
    /// Goes on until something is wanted from outside; neither a reply nor an answer may be awaited.
    /// `Done` comes once for each complete instruction but a guest call, whose [`Cpu::answer`] ends
    /// it; after `Stopped` the same stop comes again.
    #[inline(always)]
    pub fn next(&mut self, image: &Image) -> Wanted
        requires { AwaitsNothing self.old.phase }
        ensures wanted { result ≡ wanted_of (next_effect image.now self.old) }
        ensures state { self.new ≡ after_next image.now self.old }
        ensures follows { Follows self.old result self.new }
        ensures tested { IsTested image.now self.old.replies result }
    {
        let mut slot = self.held;
        self.next_by(image, &mut slot)
    }

    /// The same as [`Cpu::next`], where the word of the next instruction isn't decoded if it is that of the slot. Afterwards the
    /// slot has the instruction that began, if one did.
    #[inline(always)]
    pub(crate) fn next_by(&mut self, image: &Image, slot: &mut Slot) -> Wanted
        requires { AwaitsNothing self.old.phase }
        ensures wanted { result ≡ wanted_of (next_effect image.now self.old) }
        ensures state { self.new ≡ after_next image.now self.old }
        ensures follows { Follows self.old result self.new }
        ensures tested { IsTested image.now self.old.replies result }
    {
        self.go_on(image, slot)
    }

    /// The instruction in hand goes on, or the next one begins, up to what is wanted.
    #[inline(always)]
    fn go_on(&mut self, image: &Image, slot: &mut Slot) -> Wanted
        requires { AwaitsNothing self.old.phase }
        ensures wanted { result ≡ wanted_of (next_effect image.now self.old) }
        ensures state { self.new ≡ after_next image.now self.old }
        ensures begins { self.old.phase ≡ phase.Between → self.old.replies ≡ [] }
        ensures words { AreWords self.old.state.regs }
    {
        if let Some(wanted) = self.begin(image, slot) {
            return wanted;
        }
        let lowered = self.held.lowered();
        let mut nobody = Nobody {
            bytes: image.bytes().len(),
        };
        let progress = self.execution.act_lowered(lowered, image, &mut nobody);
        self.execution.settle(progress)
    }

    /// The next instruction begins where none is in hand. What is wanted, where none has anything to do.
    #[inline(always)]
    fn begin(&mut self, image: &Image, slot: &mut Slot) -> Option<Wanted>
        requires { AwaitsNothing self.old.phase }
        ensures wanted { IfSome result (λ wanted. wanted ≡ wanted_of (next_effect image.now self.old)) }
        ensures state { IfSome result (λ wanted. self.new ≡ after_next image.now self.old) }
        ensures begun { IfNone result (HasBegun image.now self.old self.new) }
        ensures begins { self.old.phase ≡ phase.Between → self.old.replies ≡ [] }
        ensures words { AreWords self.old.state.regs }
    {
        match self.execution.point() {
            Point::Between => self.begin_next(image, slot),
            Point::Inside => None,
            Point::Held => Some(self.execution.wanted()),
        }
    }

    /// The instruction at the PC is fetched, and decoded where the slot hasn't its word, and begins if its condition passes.
    #[inline(always)]
    fn begin_next(&mut self, image: &Image, slot: &mut Slot) -> Option<Wanted>
        requires between { self.old.phase ≡ phase.Between }
        requires none { self.old.replies ≡ [] }
        ensures wanted { IfSome result (λ wanted. wanted ≡ wanted_of (begins image.now self.old.state (instr_at image.now self.old.state.pc))) }
        ensures state { IfSome result (λ wanted. self.new ≡ after_instr image.now self.old (instr_at image.now self.old.state.pc)) }
        ensures begun { IfNone result (HasBegun image.now self.old self.new) }
    {
        let pc = self.execution.pc();
        if let Err(stop) = slot.fetch(image, pc, &mut self.near) {
            return Some(self.execution.stop_wanted(stop));
        }
        self.held = *slot;
        if self.execution.begin_if(slot.cond()) {
            return None;
        }
        Some(Wanted::Done)
    }
}

impl Cpu {
    /// The instruction at the PC, which is held, goes on after the replies that it had, or is at its start again where it had
    /// none.
    #[cold]
    #[inline(never)]
    pub(crate) fn put_back(&mut self, image: &Image) -> Passage
        requires { (instr : Instr) × (instr_at image.now self.old.state.pc ≡ Ok instr) }
        ensures passage { result ≡ passage_of self.old.replies }
        ensures machine { (instr : Instr) → instr_at image.now self.old.state.pc ≡ Ok instr → self.new ≡ in_hand instr self.old.state self.old.replies }
        ensures room { length self.new.replies ≤ 16 }
    {
        if self.execution.count_replies() == 0 {
            self.execution.finish();
            return Passage::AtStart;
        }
        self.held.keep(image, self.execution.pc());
        self.execution.begin();
        Passage::UnderWay
    }
}
