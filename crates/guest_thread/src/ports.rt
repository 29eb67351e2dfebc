//! The run of a thread over a port, which replies to its accesses.
ghost use Rattle.std.specs.Prelude.{◌≡◌, ◌<◌, ◌≤◌, ◌+◌, ◌*◌, ◌^◌, ◌++◌, ◌∷◌, [], ℕ, Bool, List, Some, IfNone, IfSome, IsTrue, MatchOption, drop, length, true};
ghost use Rattle.llsc_base.specs.Images.{Program};
ghost use Rattle.llsc_base.specs.Limits.{most_budget};
ghost use Rattle.guest_calls.specs.Calls.{most_output};
ghost use Rattle.guest_core.specs.Machine.{MachineOf};
ghost use Rattle.guest_core.specs.Ports.{Leads};
ghost use Rattle.guest_calls.specs.Run.{Pair, PointOf};
ghost use Rattle.guest_thread.specs.Ports.{EndsBy, IsRunning};
ghost use Rattle.guest_thread.specs.inner.Ports.{IsAtRest, RestsBy, RestsWithin};
ghost use Rattle.guest_thread.specs.Progress.{IsBounded, headway_of};
ghost use Rattle.guest_thread.specs.ThreadState.{thread_in};
ghost use Rattle.guest_thread.specs.Under.{HasCome, HasComeFrom};

use crate::guests::{Event, Guest, Turn};
use guest_core::{Code, Core, Passage, Port, TryPort};
use llsc_base::{Ask, Stop};

/// How a thread that may start others comes to rest.
#[derive(Clone, Copy)]
pub(crate) enum Rest {
    /// It has ended.
    Stopped(Stop),
    /// It calls for a thread to be started, and awaits the answer.
    Starts,
    /// Its steps are the budget.
    Spent,
}

/// The first of what is kept.
#[inline(always)]
fn first<R>(kept: &[R]) -> &R
    requires { 0 < length kept.now }
    ensures { kept.now ≡ result.now ∷ drop 1 kept.now }
{
    &kept[0]
}

/// What is kept behind the first.
#[inline(always)]
fn behind<R>(kept: &[R]) -> &[R]
    requires { 0 < length kept.now }
    ensures { result.now ≡ drop 1 kept.now }
{
    &kept[1..]
}

impl<C: Core> Guest<C> {
    /// Up to the thread's next access, which is made and replied to, or to the end of an instruction, or its rest. It is marked as
    /// cold, so that what it is given takes no register from the instructions that are carried through.
    #[cold]
    #[inline(never)]
    fn pass<H, P: Port<H>>(
        &mut self,
        handle: &H,
        code: &Code<C::Ready>,
        budget: u64,
        port: &mut P,
        starts: bool,
    ) -> Option<Rest>
        requires running { IsRunning (length code.now.program.bytes) budget (thread_in C.machine self.old) }
        requires mem { P.mem port.old ≡ length code.now.program.bytes }
        requires counted { P.counted port.old ≤ headway_of (thread_in C.machine self.old) }
        requires small { length code.now.program.bytes < 2 ^ 32 }
        requires budget { budget ≤ most_budget }
        ensures goes_on { IfNone result (IsRunning (length code.now.program.bytes) budget (thread_in C.machine self.new)) }
        ensures later { IfNone result (headway_of (thread_in C.machine self.old) < headway_of (thread_in C.machine self.new)) }
        ensures mem { P.mem port.new ≡ P.mem port.old }
        ensures counted { P.counted port.new ≤ headway_of (thread_in C.machine self.new) }
        ensures no_more { IfSome result (λ _. P.counted port.new ≤ P.counted port.old) }
        ensures bounded { IsBounded (thread_in C.machine self.new) }
        ensures comes { (from : PointOf C.Instr C.State) (before : List Pair) → HasComeFrom C.set starts code.now.program budget from before (thread_in C.machine self.old)
            → MatchOption result ((pairs : List Pair) × (Leads P.replies port.old pairs port.new × HasComeFrom C.set starts code.now.program budget from (before ++ pairs) (thread_in C.machine self.new)))
            (λ rest. Leads P.replies port.old [] port.new × RestsBy C.set starts (P.refuses port.new) code.now.program budget from before rest (thread_in C.machine self.new)) }
        ensures within { IfSome result (λ rest. RestsWithin budget rest (thread_in C.machine self.new)) }
        ensures starts { result ≡ Some Rest.Starts → starts ≡ true }
    {
        let image = code.image();
        let Some(event) = self.one_turn(image, budget, starts) else {
            return None;
        };
        let turn = match event {
            Event::Turns(turn) => turn,
            Event::Starts => return Some(Rest::Starts),
            Event::Spent => return Some(Rest::Spent),
        };
        let ask = match turn {
            Turn::Asks(ask) => ask,
            Turn::Ended(stop) => return Some(Rest::Stopped(stop)),
        };
        if let Some(reply) = port.reply(handle, ask) {
            self.give(reply);
            return None;
        }
        P::counts_one();
        match ask {
            Ask::Store(place, _) => Some(Rest::Stopped(Stop::TagLimit(place.addr))),
            _ => unreachable!(),
        }
    }
}

impl<C: Core> Guest<C> {
    /// Instructions are carried through over the port, one after another, as long as each is complete at once and the budget
    /// lasts; none is where one is under way already.
    #[inline(always)]
    fn carry_on<P: TryPort>(&mut self, code: &mut Code<C::Ready>, budget: u64, port: &mut P)
        requires running { IsRunning (length code.old.program.bytes) budget (thread_in C.machine self.old) }
        requires mem { P.mem port.old ≡ length code.old.program.bytes }
        requires counted { P.counted port.old ≤ headway_of (thread_in C.machine self.old) }
        requires budget { budget ≤ most_budget }
        ensures running { IsRunning (length code.old.program.bytes) budget (thread_in C.machine self.new) }
        ensures later { headway_of (thread_in C.machine self.old) ≤ headway_of (thread_in C.machine self.new) }
        ensures program { code.new.program ≡ code.old.program }
        ensures mem { P.mem port.new ≡ P.mem port.old }
        ensures counted { P.counted port.new ≤ headway_of (thread_in C.machine self.new) }
        ensures comes { (stocked : Bool) (from : PointOf C.Instr C.State) (before : List Pair) → HasComeFrom C.set stocked code.old.program budget from before (thread_in C.machine self.old)
            → (pairs : List Pair) × (Leads P.replies port.old pairs port.new × HasComeFrom C.set stocked code.old.program budget from (before ++ pairs) (thread_in C.machine self.new)) }
    {
        for _walk in 0..budget {
            if !self.is_at_rest() {
                return;
            }
            if !self.walk(code, budget, port) {
                return;
            }
            if !code.meet(self.cpu.pc()) {
                return;
            }
        }
    }

    /// The same over what is known of the program. Whether the next instruction wasn't met.
    #[inline(always)]
    fn walk<P: TryPort>(&mut self, code: &Code<C::Ready>, budget: u64, port: &mut P) -> bool
        requires running { IsRunning (length code.now.program.bytes) budget (thread_in C.machine self.old) }
        requires rest { IsAtRest (thread_in C.machine self.old) }
        requires mem { P.mem port.old ≡ length code.now.program.bytes }
        requires counted { P.counted port.old ≤ headway_of (thread_in C.machine self.old) }
        requires budget { budget ≤ most_budget }
        ensures running { IsRunning (length code.now.program.bytes) budget (thread_in C.machine self.new) }
        ensures later { headway_of (thread_in C.machine self.old) ≤ headway_of (thread_in C.machine self.new) }
        ensures mem { P.mem port.new ≡ P.mem port.old }
        ensures counted { P.counted port.new ≤ headway_of (thread_in C.machine self.new) }
        ensures comes { (stocked : Bool) (from : PointOf C.Instr C.State) (before : List Pair) → HasComeFrom C.set stocked code.now.program budget from before (thread_in C.machine self.old)
            → (pairs : List Pair) × (Leads P.replies port.old pairs port.new × HasComeFrom C.set stocked code.now.program budget from (before ++ pairs) (thread_in C.machine self.new)) }
    {
        P::counts_one();
        let image = code.image();
        let Some(mut kept) = code.from(self.cpu.pc()) else {
            return true;
        };
        let mut left = budget - self.steps;
        while left > 0 {
            match self.cpu.carry(first(kept), image, port) {
                Passage::Next => kept = behind(kept),
                Passage::Jumped => {
                    let Some(there) = code.from(self.cpu.pc()) else {
                        self.steps = budget - left + 1;
                        return true;
                    };
                    kept = there;
                }
                Passage::AtStart | Passage::UnderWay => {
                    self.steps = budget - left;
                    return false;
                }
                Passage::Unmet => {
                    self.steps = budget - left;
                    return true;
                }
            }
            left -= 1;
        }
        self.steps = budget;
        false
    }

    /// Goes on up to the thread's stop, which is its own, or that memory has no write left for a store; the port replies to
    /// each access. The budget is at most 1,000,000,000,000 steps.
    ///
    /// The core waits for no reply, the code is of the image of the start, whose length 32 bits hold, and the port's memory has
    /// as many bytes. An instruction makes 16 accesses at most, and a byte of output is loaded by one, so that the port counts
    /// no more than these.
    pub fn run<H, P: Port<H>>(
        &mut self,
        handle: &H,
        code: &mut Code<C::Ready>,
        budget: u64,
        port: &mut P,
    ) -> Stop
        requires running { IsRunning (length code.old.program.bytes) budget (thread_in C.machine self.old) }
        requires mem { P.mem port.old ≡ length code.old.program.bytes }
        requires counted { P.counted port.old ≤ headway_of (thread_in C.machine self.old) }
        requires small { length code.old.program.bytes < 2 ^ 32 }
        requires budget { budget ≤ most_budget }
        ensures program { code.new.program ≡ code.old.program }
        ensures mem { P.mem port.new ≡ P.mem port.old }
        ensures few { P.counted port.new ≤ 17 * budget + most_output + 16 }
        ensures ends { (start : MachineOf C.Instr C.State) → HasCome C.set code.old.program budget start [] (thread_in C.machine self.old)
            → (pairs : List Pair) × (Leads P.replies port.old pairs port.new × EndsBy C.set (P.refuses port.new) code.old.program budget start pairs result self.new.steps self.new.output) }
    {
        match self.run_on(handle, code, budget, port, false) {
            Rest::Stopped(stop) => stop,
            Rest::Spent => Stop::Budget,
            Rest::Starts => unreachable!(),
        }
    }

    /// Goes on as [`Guest::run`] does; where `starts` holds, also up to a call that starts a thread.
    pub(crate) fn run_on<H, P: Port<H>>(
        &mut self,
        handle: &H,
        code: &mut Code<C::Ready>,
        budget: u64,
        port: &mut P,
        starts: bool,
    ) -> Rest
        requires running { IsRunning (length code.old.program.bytes) budget (thread_in C.machine self.old) }
        requires mem { P.mem port.old ≡ length code.old.program.bytes }
        requires counted { P.counted port.old ≤ headway_of (thread_in C.machine self.old) }
        requires small { length code.old.program.bytes < 2 ^ 32 }
        requires budget { budget ≤ most_budget }
        ensures program { code.new.program ≡ code.old.program }
        ensures mem { P.mem port.new ≡ P.mem port.old }
        ensures counted { P.counted port.new ≤ headway_of (thread_in C.machine self.new) }
        ensures few { P.counted port.new ≤ 17 * budget + most_output + 16 }
        ensures bounded { IsBounded (thread_in C.machine self.new) }
        ensures comes { (from : PointOf C.Instr C.State) (before : List Pair) → HasComeFrom C.set starts code.old.program budget from before (thread_in C.machine self.old)
            → (pairs : List Pair) × (Leads P.replies port.old pairs port.new × RestsBy C.set starts (P.refuses port.new) code.old.program budget from (before ++ pairs) result (thread_in C.machine self.new)) }
        ensures within { RestsWithin budget result (thread_in C.machine self.new) }
        ensures starts { result ≡ Rest.Starts → starts ≡ true }
    {
        loop {
            self.carry_on(code, budget, port);
            if let Some(rest) = self.pass(handle, code, budget, port, starts) {
                return rest;
            }
        }
    }
}
