//! A thread that runs piece by piece on a memory that threads share.
ghost use Rattle.std.specs.Prelude.{◌≡◌, ◌<◌, ◌≤◌, ℕ, None, length};
ghost use Rattle.llsc_base.specs.Limits.{most_budget};
ghost use Rattle.shared_memory.specs.Calls.{MayUse};
ghost use Rattle.shared_memory.specs.Seen.{IsSingle};
ghost use Rattle.llsc_base.specs.declared.outside.CallAsk.{CallAsk};
ghost use Rattle.llsc_base.specs.declared.outside.Stop.{Stop};
ghost use Rattle.guest_core.specs.Machine.{between, IsCalling};
ghost use Rattle.guest_core.specs.Phase.{Calling};
ghost use Rattle.guest_thread.specs.Pieces.{CountFew, IsPiece, counts_by};
ghost use Rattle.guest_thread.specs.inner.Pieces.{ended_at, part_at};

use crate::counts::Counts;
use crate::ends::GuestEnd;
use crate::guests::Guest;
use crate::in_pieces::InPieces;
use crate::ports::Rest;
use crate::running::Finished;
use guest_calls::Output;
use guest_core::{Code, Core};
use llsc_base::Stop;
use shared_memory::SharedMemory;
use std::sync::Wait;

/// A thread that may go on: its core, its pass of the memory, and what it has done so far.
#[derive(Drop)]
pub struct Part<P, C> {
    /// Its core, between two instructions, or awaiting the answer to a call.
    pub cpu: C,
    /// Its pass, which holds its number alone.
    pub pass: P,
    /// What it wrote.
    pub out: Output,
    /// Its completed instructions.
    pub steps: u64,
    /// How many loads and load-exclusives it made.
    pub reads: u64,
    /// How many stores it made, and store-exclusives that stored.
    pub writes: u64,
    /// How many store-exclusives it made that failed.
    pub fails: u64,
}

impl<P, C: Core> Part<P, C> {
    /// A thread that has made no step and no access.
    pub fn new(cpu: C, pass: P, out: Output) -> Part<P, C>
        ensures { result ≡ record { cpu = cpu; pass = pass; out = out; steps = 0; reads = 0; writes = 0; fails = 0 } }
    {
        Part {
            cpu,
            pass,
            out,
            steps: 0,
            reads: 0,
            writes: 0,
            fails: 0,
        }
    }

    /// How many accesses of each kind it made.
    fn counts(&self) -> Counts
        ensures { result ≡ counts_by self.now }
    {
        Counts {
            reads: self.reads,
            writes: self.writes,
            fails: self.fails,
        }
    }

    /// The thread itself, and its pass.
    fn into_guest(self) -> (Guest<C>, P)
        ensures guest { result.0 ≡ record { cpu = self.cpu; steps = self.steps; output = self.out; printing = None } }
        ensures pass { result.1 ≡ self.pass }
    {
        let Part {
            cpu,
            pass,
            out,
            steps,
            reads: _,
            writes: _,
            fails: _,
        } = self;
        (Guest::at(cpu, out, steps), pass)
    }
}

/// Where a piece of a thread's run comes to.
pub enum Paused<P, C> {
    /// The thread has ended.
    Ended(Finished<P>),
    /// It calls for a thread to be started, at an address and with an argument. Whoever has started one, or hasn't, answers the
    /// call by the core's `answer`, and adds one to the steps.
    Start {
        part: Part<P, C>,
        entry: u32,
        arg: u32,
    },
    /// It has made all steps that it was to make, and may go on.
    Pause(Part<P, C>),
}

/// Goes on with a thread that may act on a memory that threads share, until it has made `upto` steps in all or has ended; and where
/// `starts` holds, until it calls for a thread to be started, by the call 0xF0001 with an address and an argument.
/// The pass holds its number alone, its core is between two instructions, and memory has as many bytes as the code's image. The
/// steps so far are at most `upto`, which is at most the budget, and that is at most 1,000,000,000,000. The accesses so far are at most
/// 17 for each step and one for each byte written, as they are at first and in each part that is given back. No memory is taken from
/// the allocator.
///
/// The thread has ended where an instruction stops it, by its exit call, at a store for which memory has no write left, or with as
/// many steps as the budget. With `upto` steps, where that is less, it pauses. Where `starts` doesn't hold, a call that would start a
/// thread is answered as one that doesn't exist.
pub fn go_on<M: SharedMemory, C: Core, R: Wait>(
    rt: &R,
    mem: &M,
    code: &mut Code<C::Ready>,
    part: Part<M::Pass, C>,
    upto: u64,
    budget: u64,
    starts: bool,
) -> Paused<M::Pass, C>
    requires memory { M.home part.pass ≡ M.id mem.now }
    requires single { MayUse (M.origin mem.now) (M.numbers part.pass) (M.seen part.pass) }
    requires whole { length code.old.program.bytes ≡ (M.origin mem.now).size.mem }
    requires between { C.machine part.cpu ≡ between (C.machine part.cpu).state }
    requires few { CountFew (counts_by part) part.steps part.out }
    requires upto { (part.steps ≤ upto) × (upto ≤ budget) }
    requires budget { budget ≤ most_budget }
    ensures program { code.new.program ≡ code.old.program }
    ensures piece { (t : ℕ) → IsSingle t (M.numbers part.pass) → IsPiece C.set C.machine M.home M.numbers M.seen (M.id mem.now) (M.origin mem.now) code.old.program starts upto budget t part result }
{
    let most = mem.size().mem();
    prove!(most <= 16_777_216);
    let left = part.out.room_left();
    prove!(left <= 65_536);
    let thread = mem.thread(&part.pass);
    let counts = part.counts();
    let (mut guest, pass) = part.into_guest();
    let mut sharing = InPieces::with(mem, pass, thread, counts);
    let rest = guest.run_on(rt, code, upto, &mut sharing, starts);
    let counts = sharing.counts();
    let pass = sharing.into_pass();
    C::is_sound();
    rested(rest, thread, guest, pass, counts, upto, budget)
}

/// A thread as it may go on.
fn part_of<P, C: Core>(guest: Guest<C>, pass: P, counts: Counts) -> Part<P, C>
    ensures { result ≡ part_at guest pass counts }
{
    let (cpu, out, steps) = guest.into_parts();
    Part {
        cpu,
        pass,
        out,
        steps,
        reads: counts.reads,
        writes: counts.writes,
        fails: counts.fails,
    }
}

/// Where a thread has come to that was to make so many steps, by how it rests. With all of them made it may go on, where they
/// aren't its budget.
fn rested<P, C: Core>(
    rest: Rest,
    thread: u32,
    guest: Guest<C>,
    pass: P,
    counts: Counts,
    upto: u64,
    budget: u64,
) -> Paused<P, C>
    requires calling { rest ≡ Rest.Starts → IsCalling (C.machine guest.cpu).phase }
    ensures stopped { (stop : Stop) → rest ≡ Rest.Stopped stop → result ≡ Paused.Ended (ended_at thread stop (part_at guest pass counts)) }
    ensures called { rest ≡ Rest.Starts → (call : CallAsk) × ((C.machine guest.cpu).phase ≡ Calling call) × (result ≡ Paused.Start (part_at guest pass counts) (C.set.call_of call).a (C.set.call_of call).b) }
    ensures pauses { rest ≡ Rest.Spent → upto < budget → result ≡ Paused.Pause (part_at guest pass counts) }
    ensures spent { rest ≡ Rest.Spent → budget ≤ upto → result ≡ Paused.Ended (ended_at thread Stop.Budget (part_at guest pass counts)) }
{
    match rest {
        Rest::Stopped(stop) => Paused::Ended(ended(thread, stop, guest, pass, counts)),
        Rest::Starts => called(part_of(guest, pass, counts)),
        Rest::Spent => {
            if upto < budget {
                return Paused::Pause(part_of(guest, pass, counts));
            }
            Paused::Ended(ended(thread, Stop::Budget, guest, pass, counts))
        }
    }
}

/// A thread that has ended.
fn ended<P, C: Core>(
    thread: u32,
    stop: Stop,
    guest: Guest<C>,
    pass: P,
    counts: Counts,
) -> Finished<P>
    ensures { result ≡ ended_at thread stop (part_at guest pass counts) }
{
    Finished {
        pass,
        end: GuestEnd {
            thread,
            stop,
            steps: guest.steps(),
            reads: counts.reads,
            writes: counts.writes,
            fails: counts.fails,
            out: guest.into_output(),
        },
    }
}

/// A thread that calls for another to be started: at the address that is the call's first argument, with the second one.
fn called<P, C: Core>(part: Part<P, C>) -> Paused<P, C>
    requires { IsCalling (C.machine part.cpu).phase }
    ensures { (call : CallAsk) × ((C.machine part.cpu).phase ≡ Calling call) × (result ≡ Paused.Start part (C.set.call_of call).a (C.set.call_of call).b) }
{
    let call = C::numbered(&part.cpu.asked_call());
    Paused::Start {
        part,
        entry: call.a,
        arg: call.b,
    }
}
