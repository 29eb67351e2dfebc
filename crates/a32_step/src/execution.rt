//! The instruction at the PC of one guest thread as it is carried out.
ghost use Rattle.llsc_base.specs.Images.{Program};
ghost use Rattle.std.specs.Prelude.{◌≡◌, ◌≢◌, ◌<◌, ◌≤◌, ◌%◌, ◌+◌, ◌^◌, ◌∷◌, ◌++◌, length, slice_index, IsFalse, IsTrue, []};
ghost use Rattle.a32_instr.specs.State.{State, register, with_register, advanced, jumps, writes, answered};
ghost use Rattle.llsc_base.specs.Effects.{stops};
ghost use Rattle.a32_instr.specs.Condition.{passes};
ghost use Rattle.a32_instr.specs.Effect.{acts};
ghost use Rattle.a32_step.specs.inner.Progress.{progress_of, stop_of};
ghost use Rattle.llsc_base.specs.inner.Words.{AreWords};
ghost use Rattle.a32_step.specs.inner.Acting.{IsActed};
ghost use Rattle.a32_step.specs.inner.ExecutionState.{Between, Inside, Awaiting, Calling, Stopped, IsAwaited, IsCalled, resting, moves, settled, wanted_at};
ghost use Rattle.a32_step.specs.inner.Inside.{stage_held};
ghost use Rattle.guest_core.specs.Machine.{wanted_of};

use crate::phases::{Hold, Point, Progress};
use crate::replies::Replies;
use crate::sources::Source;
use a32_compute::conditions::passes;
use a32_instr::{Cond, Flags, Instr, Reg};
use guest_core::Wanted;
use llsc_base::{Ask, CallAsk, Image, Stop};
use std::marker::Model;

mod accesses;
mod blocks;
mod branches;
mod data_processing;
mod exclusives;
mod load_store;
mod moves;
mod multiply;
mod rows;

use blocks::Transfer;

/// What is wanted by a thread that is held.
#[inline]
fn wanted_held(hold: Hold) -> Wanted
    ensures { result ≡ wanted_at Progress.Held (stage_held hold) }
{
    match hold {
        Hold::Access(ask) => Wanted::Access(ask),
        Hold::Call(call) => Wanted::Call(call),
        Hold::Stopped(stop) => Wanted::Stopped(stop),
    }
}

/// What an instruction works on: r0 to r14, the flags, the PC, and how far it has come. Registers,
/// flags and PC keep their values until it is complete.
#[derive(Drop)]
pub struct Execution {
    regs: [u32; 15],
    flags: Flags,
    pc: u32,
    point: Point,
    /// What holds the thread, where the point says that it is held.
    hold: Hold,
    replies: Replies,
}

impl Model for Execution {
    ghost use Rattle.a32_step.specs.inner.ExecutionState.{ExecutionState};

    ghost Value = { ExecutionState };

    ghost use Rattle.a32_step.specs.inner.Inside.{execution_state_of, IsSound};

    ghost view = { execution_state_of };

    ghost invariant = { IsSound };
}

impl Execution {
    /// Between two instructions, with these registers and flags.
    pub fn new(regs: [u32; 15], flags: Flags, pc: u32) -> Execution
        requires aligned { pc % 4 ≡ 0 }
        requires words { AreWords regs }
        ensures { result ≡ resting (record { regs = regs; flags = flags; pc = pc }) }
    {
        Execution {
            regs,
            flags,
            pc,
            point: Point::Between,
            hold: Hold::Access(Ask::Clear),
            replies: Replies::new(),
        }
    }

    /// One of r0 to r14.
    #[inline]
    pub fn reg(&self, i: u32) -> u32
        requires { i ≤ 14 }
        ensures { result ≡ slice_index self.now.state.regs i }
    {
        self.regs[i as usize]
    }

    /// The address of the instruction in hand, or of the next one.
    #[inline]
    pub fn pc(&self) -> u32
        ensures pc { result ≡ self.now.state.pc }
        ensures aligned { result % 4 ≡ 0 }
    {
        self.pc
    }

    /// The condition flags.
    #[inline]
    pub fn flags(&self) -> Flags
        ensures { result ≡ self.now.state.flags }
    {
        self.flags
    }

    /// The point that has been reached.
    #[inline]
    pub fn point(&self) -> Point
        ensures between { result ≡ Point.Between → self.now.stage ≡ Between }
        ensures begins { self.now.stage ≡ Between → self.now.replies ≡ [] }
        ensures inside { result ≡ Point.Inside → self.now.stage ≡ Inside }
        ensures held { result ≡ Point.Held → (self.now.stage ≢ Between) × (self.now.stage ≢ Inside) }
        ensures words { AreWords self.now.state.regs }
    {
        self.point
    }

    /// How many replies the instruction has had, 16 at most.
    pub fn count_replies(&self) -> usize
        ensures count { result ≡ length self.now.replies }
        ensures most { result ≤ 16 }
    {
        self.replies.count()
    }

    /// What holds the thread, if anything does.
    #[inline]
    pub fn wanted(&self) -> Wanted
        ensures { result ≡ wanted_at Progress.Held self.now.stage }
    {
        match self.point {
            Point::Between | Point::Inside => Wanted::Done,
            Point::Held => wanted_held(self.hold),
        }
    }

    /// What is wanted: nothing where the instruction is complete, which is over then, and else what holds the thread.
    #[inline(always)]
    pub fn settle(&mut self, progress: Progress) -> Wanted
        ensures wanted { result ≡ wanted_at progress self.old.stage }
        ensures state { self.new ≡ settled progress self.old }
    {
        match progress {
            Progress::Complete => {
                self.finish();
                Wanted::Done
            }
            Progress::Held => self.wanted(),
        }
    }

    /// Whether the flags meet a condition (DDI 0406C A8.3); most are the one that always holds.
    #[inline(always)]
    #[tactic(auto, unfolding(a32_instr::specs::Condition::passes))]
    pub fn meets(&self, cond: Cond) -> bool
        ensures { result ≡ passes cond self.now.state.flags }
    {
        cond.num() == 14 || passes(cond, self.flags)
    }

    /// The instruction begins, and has not done anything yet.
    #[inline]
    pub fn begin(&mut self)
        ensures { self.new ≡ record self.old { stage = Inside } }
    {
        self.point = Point::Inside;
    }

    /// The instruction begins if the flags meet its condition; otherwise it is complete, and does nothing. Whether it begins.
    #[inline(always)]
    pub fn begin_if(&mut self, cond: Cond) -> bool
        ensures begins { result ≡ passes cond self.old.state.flags }
        ensures begun { IsTrue result → self.new ≡ record self.old { stage = Inside } }
        ensures passed_over { IsFalse result → self.new ≡ record self.old { state = advanced self.old.state } }
    {
        if !self.meets(cond) {
            self.advance();
            return false;
        }
        self.begin();
        true
    }

    /// The reply to the access that is awaited.
    #[inline]
    #[tactic(auto, using(crate::proofs::ExecutionStates::room_of))]
    pub fn reply(&mut self, reply: u64)
        requires { IsAwaited self.old.stage }
        ensures state { self.new ≡ record self.old { stage = Inside; replies = self.old.replies ++ reply ∷ [] } }
        ensures room { length self.new.replies ≤ 16 }
    {
        self.replies.push(reply);
        self.point = Point::Inside;
    }

    /// The guest call whose answer is awaited.
    pub fn asked_call(&self) -> CallAsk
        requires { IsCalled self.now.stage }
        ensures { self.now.stage ≡ Calling result }
    {
        match self.wanted() {
            Wanted::Call(call) => call,
            _ => unreachable!(),
        }
    }

    /// The answer of a guest call: it goes to r0, and the call is over.
    #[tactic(auto, using(llsc_base::proofs::Words::words_set))]
    pub fn answer(&mut self, r0: u32)
        ensures { self.new ≡ resting (answered self.old.state r0) }
    {
        self.regs[0] = r0;
        self.pc = self.pc.wrapping_add(4);
        self.finish();
    }

    /// A register as an operand.
    fn operand(&self, r: Reg) -> u32
        ensures { result ≡ register self.now.state r }
    {
        let num = r.num();
        if num == 15 {
            self.pc.wrapping_add(8)
        } else {
            self.regs[num as usize]
        }
    }

    /// One of r0 to r14 set to a value.
    #[tactic(auto, using(llsc_base::proofs::Words::words_set, llsc_base::proofs::Words::set_past))]
    fn set(&mut self, r: Reg, value: u32)
        ensures { self.new ≡ record self.old { state = with_register self.old.state r value } }
    {
        let num = r.num() as usize;
        if num < self.regs.len() {
            self.regs[num] = value;
        }
    }

    /// The instruction is over.
    #[inline]
    pub fn finish(&mut self)
        ensures { self.new ≡ resting self.old.state }
    {
        self.point = Point::Between;
        self.replies.clear();
    }

    /// The instruction waits for the reply to an access.
    #[inline]
    fn wait(&mut self, ask: Ask)
        requires { length self.old.replies < 16 }
        ensures { self.new ≡ record self.old { stage = Awaiting ask } }
    {
        self.point = Point::Held;
        self.hold = Hold::Access(ask);
    }

    /// The thread stops.
    pub fn stop(&mut self, stop: Stop) -> Progress
        ensures progress { result ≡ progress_of (stops stop) }
        ensures state { self.new ≡ record self.old { stage = Stopped stop } }
    {
        self.point = Point::Held;
        self.hold = Hold::Stopped(stop);
        Progress::Held
    }

    /// The thread stops, and that is what is wanted.
    pub fn stop_wanted(&mut self, stop: Stop) -> Wanted
        ensures wanted { result ≡ wanted_of {S = State} (stops stop) }
        ensures state { self.new ≡ record self.old { stage = Stopped stop } }
    {
        self.stop(stop);
        Wanted::Stopped(stop)
    }

    /// The instruction is complete, and wrote no PC.
    pub fn advance(&mut self) -> Progress
        ensures progress { result ≡ Progress.Complete }
        ensures state { self.new ≡ record self.old { state = advanced self.old.state } }
    {
        self.pc = self.pc.wrapping_add(4);
        Progress::Complete
    }

    /// What stops the thread if it writes a value to the PC (DDI 0406C A2.3), if anything does.
    #[inline]
    fn stop_at_value(&self, value: u32) -> Option<Stop>
        ensures { result ≡ stop_of (jumps self.now.state value) }
    {
        if value % 2 == 1 {
            return Some(Stop::Thumb(self.pc));
        }
        if value % 4 == 2 {
            return Some(Stop::Unpredictable(self.pc));
        }
        None
    }

    /// The instruction is complete with a write to the PC, if the value is one that the PC may have.
    fn jump(&mut self, flags: Flags, value: u32) -> Progress
        ensures progress { result ≡ progress_of (jumps (record self.old.state { flags = flags }) value) }
        ensures state { self.new ≡ moves self.old (jumps (record self.old.state { flags = flags }) value) }
    {
        if let Some(stop) = self.stop_at_value(value) {
            return self.stop(stop);
        }
        self.flags = flags;
        self.pc = value;
        Progress::Complete
    }

    /// The instruction is complete with a value in a register, and with these flags.
    #[tactic(auto, using(llsc_base::proofs::Words::words_set))]
    fn write(&mut self, flags: Flags, r: Reg, value: u32) -> Progress
        ensures progress { result ≡ progress_of (writes (record self.old.state { flags = flags }) r value) }
        ensures state { self.new ≡ moves self.old (writes (record self.old.state { flags = flags }) r value) }
    {
        let num = r.num();
        if num == 15 {
            return self.jump(flags, value);
        }
        self.flags = flags;
        self.regs[num as usize] = value;
        self.advance()
    }
}

impl Execution {
    /// What the instruction does, its condition passed. The source is asked for the accesses to which it has had no reply.
    #[rattlefmt::skip] // a row for each instruction
    #[inline(always)]
    pub fn act<S: Source>(&mut self, instr: &Instr, image: &Image, source: &mut S) -> Progress
        requires fresh { IsFalse S.RESUMES → self.old.replies ≡ [] }
        requires mem { S.mem source.old ≡ length image.now.bytes }
        requires few { S.counted source.old + 16 ≤ 2 ^ 63 }
        ensures acted { IsActed S.replies (λ had. acts instr.now image.now had self.old.state) self.old source.old result self.new source.new }
        ensures mem { S.mem source.new ≡ S.mem source.old }
        ensures counted { S.counted source.new ≤ S.counted source.old + 16 }
    {
        match *instr {
            Instr::Alu { op, s, rd, rn, operand, .. } => self.alu(op, s, rd, rn, operand),
            Instr::Movw { rd, imm, .. } => self.move_wide(rd, imm),
            Instr::Movt { rd, imm, .. } => self.move_top(rd, imm),
            Instr::Nop { .. } => self.advance(),
            Instr::Yield { .. } => self.advance(),
            Instr::Barrier { .. } => self.advance(),
            Instr::Mul { s, rd, rn, rm, .. } => self.multiply(s, rd, rn, rm),
            Instr::Mla { s, rd, rn, rm, ra, .. } => self.multiply_and_add(s, rd, rn, rm, ra),
            Instr::Mls { rd, rn, rm, ra, .. } => self.multiply_and_subtract(rd, rn, rm, ra),
            Instr::Long { kind, s, lo, hi, rn, rm, .. } => self.multiply_long(kind, s, lo, hi, rn, rm),
            Instr::Clz { rd, rm, .. } => self.count_zeros(rd, rm),
            Instr::Extend { unsigned, half, rd, rm, turn, .. } => self.extend(unsigned, half, rd, rm, turn),
            Instr::Rev { rd, rm, .. } => self.reverse(rd, rm),
            Instr::Word { load, byte, index, rn, rt, ref offset, .. } =>
                self.access_word(image, load, byte, index, rn, rt, offset, source),
            Instr::Half { kind, index, rn, rt, ref offset, .. } => self.access_half(image, kind, index, rn, rt, offset, source),
            Instr::Block { load, before, up, wback, rn, list, .. } => {
                let transfer = Transfer { load, before, up, wback, rn, list };
                self.access_block(image, transfer, source)
            }
            Instr::Branch { link, words, .. } => self.branch(link, words),
            Instr::BranchReg { link, rm, .. } => self.branch_by_register(link, rm),
            Instr::Svc { imm, .. } => self.call(imm),
            Instr::LoadEx { size, rn, rt, .. } => self.load_exclusive(image, size, rn, rt, source),
            Instr::StoreEx { size, rn, rd, rt, .. } => self.store_exclusive(image, size, rn, rd, rt, source),
            Instr::Clrex => self.clear_exclusive(image, source),
        }
    }
}
