//! One guest thread's core.
ghost use Rattle.std.specs.Prelude.{◌≡◌, ◌%◌, ◌+◌, ◌<◌, ◌≤◌, ℕ, List, [], length, IsTrue};
ghost use Rattle.llsc_base.specs.Images.{Program};
ghost use Rattle.llsc_base.specs.Effects.{stops};
ghost use Rattle.guest_core.specs.Phase as phase;
ghost use Rattle.guest_core.specs.Machine.{after_found_of, after_of, begins_of, between, given, moved_on, next_of, wanted_of, Follows, IsAwaiting, IsCalling, AwaitsNothing, IsTested};
ghost use Rattle.rv32_guest.specs.Kept.{MakesNoAccess};
ghost use Rattle.rv32_guest.specs.Effect.{acts};
ghost use Rattle.rv32_guest.specs.Machine.{instr_at, rv32, start_of};
ghost use Rattle.rv32_guest.specs.State.{RvState, answered, register};

use crate::decoder::rv_decode;
use crate::instructions::RvInstr;
use crate::outcomes::Outcome;
use crate::reg::RvReg;
use crate::registers::Registers;
use guest_core::{Wanted, stop_at};
use llsc_base::{Ask, CallAsk, Image, Stop};
use std::marker::Model;

/// Where a thread stands in its instruction.
#[derive(Clone, Copy)]
pub enum Stage {
    /// Between two instructions.
    Between,
    /// Inside an instruction that waits for nothing.
    Inside,
    /// It waits for the reply to an access.
    Awaiting(Ask),
    /// It waits for the answer of a guest call.
    Calling(CallAsk),
    /// It has stopped for good.
    Stopped(Stop),
}

/// The core of one guest thread: its registers and PC, and where it stands in its instruction. Registers and PC keep their values
/// until an instruction is complete.
#[derive(Drop)]
pub struct RvCpu {
    pub(crate) registers: Registers,
    pub(crate) stage: Stage,
    /// The instruction in hand.
    pub(crate) instr: RvInstr,
    /// The reply that it has had.
    pub(crate) reply: Option<u64>,
    /// The span that served the last fetch.
    near: usize,
}

impl Model for RvCpu {
    ghost use Rattle.rv32_guest.specs.Machine.{Machine};

    ghost Value = { Machine };

    ghost use Rattle.rv32_guest.specs.Inside.{IsSound};
    ghost use Rattle.rv32_guest.specs.inner.Inside.{machine_of};

    ghost view = { machine_of };

    ghost invariant = { IsSound };
}

impl RvCpu {
    /// The start of guest thread `t` of `n`: x10 is `t`, x11 is `n`, x2 is `sp`, all other registers are 0, and the PC is `entry`,
    /// a multiple of 4.
    pub fn start(entry: u32, t: u32, n: u32, sp: u32) -> RvCpu
        requires { entry % 4 ≡ 0 }
        ensures { result ≡ start_of entry t n sp }
    {
        RvCpu {
            registers: Registers::start(entry, sp, t, n),
            stage: Stage::Between,
            instr: RvInstr::Fence,
            reply: None,
            near: 0,
        }
    }

    /// One of x0 to x31.
    pub fn reg(&self, i: u32) -> u32
        requires { i < 32 }
        ensures { result ≡ register self.now.state i }
    {
        self.registers.x(RvReg::new(i as u8))
    }

    /// The address of the instruction in hand, or of the next one.
    pub fn pc(&self) -> u32
        ensures pc { result ≡ self.now.state.pc }
        ensures aligned { result % 4 ≡ 0 }
    {
        self.registers.pc()
    }

    /// Goes on until something is wanted from outside; neither a reply nor an answer may be awaited. `Done` comes once for each
    /// complete instruction but a guest call, whose [`RvCpu::answer`] ends it; after `Stopped` the same stop comes again.
    #[inline]
    pub fn next(&mut self, image: &Image) -> Wanted
        requires { AwaitsNothing self.old.phase }
        ensures wanted { result ≡ wanted_of (next_of rv32 image.now self.old) }
        ensures state { self.new ≡ after_of rv32 image.now self.old }
        ensures follows { Follows self.old result self.new }
        ensures tested { IsTested image.now self.old.replies result }
    {
        self.go_on(image)
    }

    /// The reply to the access that is awaited; one must be. Any number is taken. Of a load's reply as many of the low bits count
    /// as its place has, of an SC.W's the low 32, and of a store's none.
    pub fn give(&mut self, reply: u64)
        requires { IsAwaiting self.old.phase }
        ensures state { self.new ≡ given self.old reply }
        ensures ready { AwaitsNothing self.new.phase }
        ensures one_more { length self.new.replies ≡ length self.old.replies + 1 }
        ensures room { length self.new.replies ≤ 16 }
    {
        self.reply = Some(reply);
        self.stage = Stage::Inside;
    }

    /// The answer of the guest call that is awaited: it goes to x10, and the call is over.
    pub fn answer(&mut self, x10: u32)
        requires { IsCalling self.old.phase }
        ensures { self.new ≡ between (answered self.old.state x10) }
    {
        let next_pc = self.registers.next_pc();
        self.registers.complete(RvReg::new(10), x10, next_pc);
        self.stage = Stage::Between;
        self.reply = None;
    }

    /// Whether it is between two instructions.
    #[inline]
    #[tactic(auto, using(crate::proofs::Resting::is_resting))]
    pub fn is_between(&self) -> bool
        ensures rest { IsTrue result → self.now ≡ between self.now.state }
        ensures all { self.now ≡ between self.now.state → IsTrue result }
    {
        matches!(self.stage, Stage::Between)
    }

    /// The guest call whose answer is awaited; one must be.
    pub fn asked_call(&self) -> CallAsk
        requires { IsCalling self.now.phase }
        ensures { self.now.phase ≡ phase.Calling result }
    {
        match self.stage {
            Stage::Calling(call) => call,
            _ => unreachable!(),
        }
    }
}

impl RvCpu {
    /// The instruction in hand goes on, or the next one begins, up to what is wanted.
    #[inline]
    fn go_on(&mut self, image: &Image) -> Wanted
        requires { AwaitsNothing self.old.phase }
        ensures wanted { result ≡ wanted_of (next_of rv32 image.now self.old) }
        ensures state { self.new ≡ after_of rv32 image.now self.old }
        ensures tested { IsTested image.now self.old.replies result }
    {
        match self.stage {
            Stage::Between => self.begin(image),
            Stage::Inside => self.act(self.instr, image),
            Stage::Awaiting(ask) => Wanted::Access(ask),
            Stage::Calling(call) => Wanted::Call(call),
            Stage::Stopped(stop) => Wanted::Stopped(stop),
        }
    }

    /// The next instruction is fetched and decoded, and does what it does first.
    fn begin(&mut self, image: &Image) -> Wanted
        requires between { self.old.phase ≡ phase.Between }
        requires none { self.old.replies ≡ [] }
        ensures wanted { result ≡ wanted_of (begins_of rv32 image.now self.old.state (instr_at image.now self.old.state.pc)) }
        ensures state { self.new ≡ after_found_of rv32 image.now self.old (instr_at image.now self.old.state.pc) }
        ensures tested { IsTested image.now self.old.replies result }
    {
        match self.fetch(image) {
            Ok(instr) => self.act(instr, image),
            Err(stop) => self.stop(stop),
        }
    }

    /// The instruction at the PC, or what stops the thread there.
    fn fetch(&mut self, image: &Image) -> Result<RvInstr, Stop>
        ensures found { result ≡ instr_at image.now self.old.state.pc }
        ensures state { self.new ≡ self.old }
    {
        let pc = self.registers.pc();
        let Some(word) = image.fetch_near(pc, &mut self.near) else {
            return Err(Stop::Outside(pc));
        };
        match rv_decode(word) {
            Ok(instr) => Ok(instr),
            Err(fault) => Err(fault.stop_at(pc)),
        }
    }

    /// An instruction does what it does with the replies so far.
    fn act(&mut self, instr: RvInstr, image: &Image) -> Wanted
        ensures wanted { result ≡ wanted_of (acts instr image.now self.old.replies self.old.state) }
        ensures state { self.new ≡ moved_on instr self.old (acts instr image.now self.old.replies self.old.state) }
        ensures tested { IsTested image.now self.old.replies result }
    {
        let Some(ask) = self.registers.access(&instr) else {
            return self.act_alone(instr);
        };
        if let Some(reply) = self.reply {
            self.registers.take(&instr, reply);
            return self.finish();
        }
        if let Some(stop) = stop_at(image, ask) {
            return self.stop(stop);
        }
        self.instr = instr;
        self.stage = Stage::Awaiting(ask);
        Wanted::Access(ask)
    }

    /// An instruction that makes no access does what it does.
    fn act_alone(&mut self, instr: RvInstr) -> Wanted
        requires { MakesNoAccess instr }
        ensures wanted { (program : Program) → result ≡ wanted_of (acts instr program self.old.replies self.old.state) }
        ensures state { (program : Program) → self.new ≡ moved_on instr self.old (acts instr program self.old.replies self.old.state) }
        ensures no_access { (program : Program) (replies : List ℕ) → IsTested program replies result }
    {
        match self.registers.act(instr) {
            Outcome::Next | Outcome::Jumps => self.finish(),
            Outcome::Calls(call) => {
                self.stage = Stage::Calling(call);
                Wanted::Call(call)
            }
            Outcome::Stops(stop) => self.stop(stop),
        }
    }

    /// The instruction is complete.
    fn finish(&mut self) -> Wanted
        ensures wanted { result ≡ Wanted.Done }
        ensures state { self.new ≡ between self.old.state }
    {
        self.stage = Stage::Between;
        self.reply = None;
        Wanted::Done
    }

    /// The thread stops.
    fn stop(&mut self, stop: Stop) -> Wanted
        ensures wanted { result ≡ wanted_of {S = RvState} (stops stop) }
        ensures state { self.new ≡ record self.old { phase = phase.Stopped stop } }
    {
        self.stage = Stage::Stopped(stop);
        Wanted::Stopped(stop)
    }
}
