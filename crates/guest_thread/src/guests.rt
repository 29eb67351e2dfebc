//! A thread's turns.
ghost use Rattle.std.specs.Prelude.{◌≡◌, ◌≤◌, ◌<◌, ◌+◌, ◌%◌, ◌^◌, ℕ, Bool, List, [], None, Some, ◌∷◌, ◌++◌, length, true, IfNone, IfOk, IfSome, IsTrue, MatchOption};
ghost use Rattle.llsc_base.specs.Limits.{most_budget};
ghost use Rattle.llsc_base.specs.Images.{Program};
ghost use Rattle.llsc_base.specs.declared.outside.Ask.{Ask};
ghost use Rattle.llsc_base.specs.declared.outside.CallAsk.{CallAsk};
ghost use Rattle.guest_core.specs.Phase as phase;
ghost use Rattle.guest_core.specs.Machine.{MachineOf, AwaitsNothing, IsCalling};
ghost use Rattle.guest_calls.specs.Run.{Pair, PointOf, byte_load, effect_of_call};
ghost use Rattle.guest_thread.specs.inner.Ports.{IsAtRest};
ghost use Rattle.guest_thread.specs.Progress.{HasKept, HasMoved, IsBounded};
ghost use Rattle.guest_thread.specs.ThreadState.{thread_in, HasLeft, IsReadyIn, IsWaitingIn, IsPendingAfter, MayGive};
ghost use Rattle.guest_thread.specs.inner.ThreadState.{EndsWithin, IsPendingAfterEvent};
ghost use Rattle.guest_thread.specs.Start.{first_state, thread_start};
ghost use Rattle.guest_thread.specs.inner.Turns.{AfterCall, IsAtTurn, IsOneStepOn, after_byte, turn_by};
ghost use Rattle.guest_thread.specs.Under.{HasCome, HasComeFrom, Awaits, AwaitsFrom, ComesTo};
ghost use Rattle.guest_thread.specs.inner.Under.{ComesToEvent};

use crate::starts::start_cpu;
use guest_calls::{CallStep, Output, guest_call, is_start_call};
use guest_core::{Core, Wanted};
use llsc_base::{Ask, CallAsk, Image, MachineSize, Place, Size, Stop};
use std::alloc::{AllocError, Global};
use std::marker::Model;

/// A write in the middle of which a thread is: its bytes stand from an address up, and some of them were loaded.
#[derive(Clone, Copy)]
pub struct Printing {
    pub from: u32,
    pub len: u32,
    pub loaded: u32,
}

/// What a thread's turn comes to.
#[derive(Clone, Copy, Debug, PartialEq, Eq)]
pub enum Turn {
    /// It asks for an access, and awaits the reply.
    Asks(Ask),
    /// It has ended.
    Ended(Stop),
}

/// What a thread's turn comes to where the thread may start others.
#[derive(Clone, Copy)]
pub(crate) enum Event {
    /// What a turn of any thread comes to.
    Turns(Turn),
    /// It calls for a thread to be started, and awaits the answer.
    Starts,
    /// Its steps are the budget.
    Spent,
}

/// What a guest call comes to.
#[derive(Clone, Copy)]
enum Called {
    /// It is answered, and over.
    Answered,
    /// It ends the thread with this code.
    Exits(u8),
    /// It writes the bytes from this address up, and wants the first of them.
    Writes { from: u32 },
}

impl Called {
    /// What the thread's turn comes to by it. `None` where it was answered.
    #[inline(always)]
    fn turn(self) -> Option<Turn>
        ensures { result ≡ turn_by self }
    {
        match self {
            Called::Answered => None,
            Called::Exits(code) => Some(Turn::Ended(Stop::Exit(code))),
            Called::Writes { from } => Some(Turn::Asks(byte_at(from))),
        }
    }
}

/// A guest thread under way: its core, its steps, and its output.
///
/// ```
/// let mut guest = Guest::<Cpu>::start(alloc, &image, &size, 0)?;
/// let mut code = Code::new(alloc, &image)?;
/// let stop = guest.run(&handle, &mut code, 1000, &mut port); // at most 1000 steps; where it has to, the port waits by the handle
/// ```
#[derive(Drop)]
pub struct Guest<C: Core> {
    pub(crate) cpu: C,
    pub(crate) steps: u64,
    output: Output,
    printing: Option<Printing>,
}

impl<C: Core> Model for Guest<C> {
    ghost use Rattle.guest_thread.specs.inner.Ports.{IsAtRest};
    ghost use Rattle.guest_thread.specs.Progress.{HasKept, HasMoved, IsBounded};
    ghost use Rattle.guest_thread.specs.ThreadState.{ThreadStateOf};

    ghost Value = { ThreadStateOf C };

    ghost view = { λ g. record { cpu = g.cpu; steps = g.steps; output = g.output; printing = g.printing } };
}

impl<C: Core> Guest<C> {
    /// A thread of a program at its start, whose core is [`start_cpu`]'s. `t` is below the machine's threads.
    ///
    /// # Errors
    ///
    /// `AllocError` is want of memory for the output.
    pub fn start(
        alloc: Global,
        image: &Image,
        size: &MachineSize,
        t: u32,
    ) -> Result<Guest<C>, AllocError>
        requires { t < size.now.threads }
        ensures state { IfOk result (λ guest. thread_in C.machine guest ≡ first_state C.set image.now size.now size.now.threads t) }
        ensures ready { IfOk result (λ guest. (mem budget : ℕ) → IsReadyIn mem budget (thread_in C.machine guest)) }
        ensures comes { IfOk result (λ guest. (budget : ℕ) → HasCome C.set image.now budget (thread_start C.set image.now size.now size.now.threads t) [] (thread_in C.machine guest)) }
    {
        let output = Output::new(alloc)?;
        Ok(Guest::new(start_cpu(image, size, size.threads(), t), output))
    }

    /// Whether it is between two instructions, and no write is under way.
    #[inline]
    pub(crate) fn is_at_rest(&self) -> bool
        ensures { IsTrue result → IsAtRest (thread_in C.machine self.now) }
    {
        self.printing.is_none() && self.cpu.is_between()
    }
}

impl<C: Core> Guest<C> {
    /// A thread whose core is between two instructions, and that has written nothing.
    pub fn new(cpu: C, output: Output) -> Guest<C>
        ensures state { result ≡ record { cpu = cpu; steps = 0; output = output; printing = None } }
        ensures ready { AwaitsNothing (C.machine cpu).phase → (mem budget : ℕ) → IsReadyIn mem budget (thread_in C.machine result) }
        ensures comes { output ≡ [] → (program : Program) (budget : ℕ) → HasCome C.set program budget (C.machine cpu) [] (thread_in C.machine result) }
    {
        Guest {
            cpu,
            steps: 0,
            output,
            printing: None,
        }
    }

    /// A thread whose core is between two instructions, and that has made so many steps and written this.
    pub(crate) fn at(cpu: C, output: Output, steps: u64) -> Guest<C>
        ensures { result ≡ record { cpu = cpu; steps = steps; output = output; printing = None } }
    {
        Guest {
            cpu,
            steps,
            output,
            printing: None,
        }
    }

    /// Its core, what it wrote, and its steps.
    pub(crate) fn into_parts(self) -> (C, Output, u64)
        ensures cpu { result.0 ≡ self.cpu }
        ensures output { result.1 ≡ self.output }
        ensures steps { result.2 ≡ self.steps }
    {
        let Guest {
            cpu,
            steps,
            output,
            printing: _,
        } = self;
        (cpu, output, steps)
    }

    /// How many steps the thread has made.
    pub fn steps(&self) -> u64
        ensures { result ≡ self.now.steps }
    {
        self.steps
    }

    /// The address of the instruction in hand, or of the next one.
    #[inline]
    pub fn pc(&self) -> u32
        ensures pc { result ≡ C.set.pc_of (thread_in C.machine self.now).cpu.state }
        ensures aligned { result % 4 ≡ 0 }
    {
        self.cpu.pc()
    }

    /// What the thread wrote.
    pub fn into_output(self) -> Output
        ensures { result ≡ self.output }
    {
        self.output
    }
}

impl<C: Core> Guest<C> {
    /// Goes on until the thread asks for an access or has ended: by a stop, by the exit call, or since it has made
    /// `budget` steps. The budget is at most 1,000,000,000,000 steps.
    ///
    /// The core waits for no reply, and the image is that of the start, whose length 32 bits hold. A thread that has ended
    /// isn't asked again. In the middle of a write the answer is the next byte's load, also where it was asked for before.
    pub fn next(&mut self, image: &Image, budget: u64) -> Turn
        requires ready { IsReadyIn (length image.now.bytes) budget (thread_in C.machine self.old) }
        requires small { length image.now.bytes < 2 ^ 32 }
        requires budget { budget ≤ most_budget }
        ensures comes { (start : MachineOf C.Instr C.State) (pairs : List Pair) → HasCome C.set image.now budget start pairs (thread_in C.machine self.old)
            → ComesTo C.set image.now budget start pairs result (thread_in C.machine self.new) }
        ensures pending { IsPendingAfter (length image.now.bytes) budget result (thread_in C.machine self.new) }
        ensures within { self.new.steps ≤ budget }
        ensures kept { IsBounded (thread_in C.machine self.old) → HasKept (thread_in C.machine self.old) (thread_in C.machine self.new) }
    {
        if let Some(printing) = self.printing {
            return Turn::Asks(byte_ask(printing));
        }
        while self.steps < budget {
            if let Some(turn) = self.turn(image) {
                return turn;
            }
        }
        Turn::Ended(Stop::Budget)
    }

    /// Goes on by one instruction, or up to the thread's next access or its end, as [`Guest::next`] does; where `starts` holds, also up to
    /// a call that starts a thread. `None` where the instruction is complete.
    #[inline(never)]
    pub(crate) fn one_turn(&mut self, image: &Image, budget: u64, starts: bool) -> Option<Event>
        requires ready { IsReadyIn (length image.now.bytes) budget (thread_in C.machine self.old) }
        requires small { length image.now.bytes < 2 ^ 32 }
        requires budget { budget ≤ most_budget }
        ensures comes { (from : PointOf C.Instr C.State) (pairs : List Pair) → HasComeFrom C.set starts image.now budget from pairs (thread_in C.machine self.old)
            → MatchOption result (HasComeFrom C.set starts image.now budget from pairs (thread_in C.machine self.new)) (λ event. ComesToEvent C.set starts image.now budget from pairs event (thread_in C.machine self.new)) }
        ensures pending { IfSome result (λ event. IsPendingAfterEvent (length image.now.bytes) budget event (thread_in C.machine self.new)) }
        ensures ready { IfNone result (IsReadyIn (length image.now.bytes) budget (thread_in C.machine self.new)) }
        ensures later { IfNone result ((self.old.steps < self.new.steps) × (self.new.output ≡ self.old.output)) }
        ensures kept { IsBounded (thread_in C.machine self.old) → HasKept (thread_in C.machine self.old) (thread_in C.machine self.new) }
        ensures within { IfSome result (λ event. EndsWithin budget event (thread_in C.machine self.new)) }
        ensures starts { result ≡ Some Event.Starts → starts ≡ true }
    {
        if let Some(printing) = self.printing {
            return Some(Event::Turns(Turn::Asks(byte_ask(printing))));
        }
        if self.steps >= budget {
            return Some(Event::Spent);
        }
        self.turn_or_start(image, starts)
    }

    /// One instruction goes on, or a guest call is made, of a thread that starts none. `None` where it is complete.
    #[inline(always)]
    fn turn(&mut self, image: &Image) -> Option<Turn>
        requires at_turn { IsAtTurn (thread_in C.machine self.old) }
        requires few { self.old.steps < most_budget }
        requires small { length image.now.bytes < 2 ^ 32 }
        ensures goes_on { IfNone result (IsOneStepOn (thread_in C.machine self.old) (thread_in C.machine self.new)) }
        ensures comes { (budget : ℕ) (start : MachineOf C.Instr C.State) (pairs : List Pair) → HasCome C.set image.now budget start pairs (thread_in C.machine self.old) → self.old.steps < budget
            → MatchOption result (HasCome C.set image.now budget start pairs (thread_in C.machine self.new)) (λ turn. ComesTo C.set image.now budget start pairs turn (thread_in C.machine self.new)) }
        ensures pending { IfSome result (λ turn. (budget : ℕ) → self.old.steps < budget → IsPendingAfter (length image.now.bytes) budget turn (thread_in C.machine self.new)) }
        ensures output { self.new.output ≡ self.old.output }
        ensures at_most { self.new.steps ≤ self.old.steps + 1 }
        ensures kept { IsBounded (thread_in C.machine self.old) → HasKept (thread_in C.machine self.old) (thread_in C.machine self.new) }
    {
        let Some(event) = self.turn_or_start(image, false) else {
            return None;
        };
        match event {
            Event::Turns(turn) => Some(turn),
            Event::Starts | Event::Spent => unreachable!(),
        }
    }

    /// One instruction goes on, or a guest call is made, but where `starts` holds none that starts a thread. `None` where it is complete.
    #[inline(always)]
    #[tactic(auto, using(crate::proofs::Kept::calling_keeps, crate::proofs::Kept::stopping_keeps))]
    fn turn_or_start(&mut self, image: &Image, starts: bool) -> Option<Event>
        requires at_turn { IsAtTurn (thread_in C.machine self.old) }
        requires few { self.old.steps < most_budget }
        requires small { length image.now.bytes < 2 ^ 32 }
        ensures goes_on { IfNone result (IsOneStepOn (thread_in C.machine self.old) (thread_in C.machine self.new)) }
        ensures comes { (budget : ℕ) (from : PointOf C.Instr C.State) (pairs : List Pair) → HasComeFrom C.set starts image.now budget from pairs (thread_in C.machine self.old) → self.old.steps < budget
            → MatchOption result (HasComeFrom C.set starts image.now budget from pairs (thread_in C.machine self.new)) (λ event. ComesToEvent C.set starts image.now budget from pairs event (thread_in C.machine self.new)) }
        ensures pending { IfSome result (λ event. (budget : ℕ) → self.old.steps < budget → IsPendingAfterEvent (length image.now.bytes) budget event (thread_in C.machine self.new)) }
        ensures output { self.new.output ≡ self.old.output }
        ensures at_most { self.new.steps ≤ self.old.steps + 1 }
        ensures kept { IsBounded (thread_in C.machine self.old) → HasKept (thread_in C.machine self.old) (thread_in C.machine self.new) }
        ensures within { IfSome result (λ event. (budget : ℕ) → self.old.steps < budget → EndsWithin budget event (thread_in C.machine self.new)) }
        ensures starts { result ≡ Some Event.Starts → starts ≡ true }
        ensures unspent { (result ≡ Some Event.Spent) → ⊥ }
    {
        match self.cpu.next(image) {
            Wanted::Access(ask) => Some(Event::Turns(Turn::Asks(ask))),
            Wanted::Call(call) => {
                if starts && is_start_call(&C::numbered(&call)) {
                    return Some(Event::Starts);
                }
                let called = self.call(image);
                let Some(turn) = called.turn() else {
                    return None;
                };
                Some(Event::Turns(turn))
            }
            Wanted::Done => {
                self.steps += 1;
                None
            }
            Wanted::Stopped(stop) => Some(Event::Turns(Turn::Ended(stop))),
        }
    }

    /// The guest call that the core waits for is made.
    #[inline(never)]
    fn call(&mut self, image: &Image) -> Called
        requires calling { IsCalling (C.machine self.old.cpu).phase }
        requires few { self.old.steps < most_budget }
        requires small { length image.now.bytes < 2 ^ 32 }
        ensures made { (call : CallAsk) → (C.machine self.old.cpu).phase ≡ phase.Calling call
            → AfterCall C.set (length image.now.bytes) (effect_of_call C.set image.now call (length self.old.output)) (thread_in C.machine self.old) result (thread_in C.machine self.new) }
        ensures goes_on { self.old.printing ≡ None → IfNone (turn_by result) (IsOneStepOn (thread_in C.machine self.old) (thread_in C.machine self.new)) }
        ensures pending { self.old.printing ≡ None
            → IfSome (turn_by result) (λ turn. (budget : ℕ) → self.old.steps < budget → IsPendingAfter (length image.now.bytes) budget turn (thread_in C.machine self.new)) }
        ensures output { self.new.output ≡ self.old.output }
        ensures at_most { self.new.steps ≤ self.old.steps + 1 }
        ensures kept { IsBounded (thread_in C.machine self.old) → HasKept (thread_in C.machine self.old) (thread_in C.machine self.new) }
    {
        let call = self.cpu.asked_call();
        self.make(image, &call)
    }

    /// A guest call is made, which the core waits for.
    fn make(&mut self, image: &Image, call: &CallAsk) -> Called
        requires calling { IsCalling (C.machine self.old.cpu).phase }
        requires few { self.old.steps < most_budget }
        requires small { length image.now.bytes < 2 ^ 32 }
        ensures made { AfterCall C.set (length image.now.bytes) (effect_of_call C.set image.now call.now (length self.old.output)) (thread_in C.machine self.old) result (thread_in C.machine self.new) }
        ensures goes_on { self.old.printing ≡ None → IfNone (turn_by result) (IsOneStepOn (thread_in C.machine self.old) (thread_in C.machine self.new)) }
        ensures pending { self.old.printing ≡ None
            → IfSome (turn_by result) (λ turn. (budget : ℕ) → self.old.steps < budget → IsPendingAfter (length image.now.bytes) budget turn (thread_in C.machine self.new)) }
        ensures output { self.new.output ≡ self.old.output }
        ensures at_most { self.new.steps ≤ self.old.steps + 1 }
        ensures kept { IsBounded (thread_in C.machine self.old) → HasKept (thread_in C.machine self.old) (thread_in C.machine self.new) }
    {
        let mem = image.bytes().len() as u32;
        match guest_call(&mut self.cpu, call, mem, &mut self.output) {
            CallStep::Exit(code) => {
                self.steps += 1;
                Called::Exits(code)
            }
            CallStep::Answered => {
                self.steps += 1;
                Called::Answered
            }
            CallStep::Bytes { from, len } => {
                self.printing = Some(Printing {
                    from,
                    len,
                    loaded: 0,
                });
                Called::Writes { from }
            }
        }
    }
}

impl<C: Core> Guest<C> {
    /// The reply to the access that is awaited: any value of its size to a load, which is a byte for a byte of a write, 1 to
    /// a store-exclusive that failed, and otherwise 0.
    #[inline(always)]
    pub fn give(&mut self, reply: u64)
        requires { MayGive (thread_in C.machine self.old) reply }
        ensures ready { (mem budget : ℕ) → IsWaitingIn mem budget (thread_in C.machine self.old) → IsReadyIn mem budget (thread_in C.machine self.new) }
        ensures comes { (program : Program) (budget : ℕ) (start : MachineOf C.Instr C.State) (pairs : List Pair) (ask : Ask) →
            Awaits C.set program budget start pairs ask (thread_in C.machine self.old) → HasCome C.set program budget start (pairs ++ (ask, reply) ∷ []) (thread_in C.machine self.new) }
        ensures on { (stocked : Bool) (program : Program) (budget : ℕ) (from : PointOf C.Instr C.State) (pairs : List Pair) (ask : Ask) →
            AwaitsFrom C.set stocked program budget from pairs ask (thread_in C.machine self.old) → HasComeFrom C.set stocked program budget from (pairs ++ (ask, reply) ∷ []) (thread_in C.machine self.new) }
        ensures moved { IsBounded (thread_in C.machine self.old) → HasMoved (thread_in C.machine self.old) (thread_in C.machine self.new) }
    {
        match self.printing {
            None => self.cpu.give(reply),
            Some(printing) => self.print(printing, reply as u8),
        }
    }

    /// One byte more of a write; with its last one the call is answered by the number of its bytes.
    fn print(&mut self, printing: Printing, byte: u8)
        requires left { HasLeft (thread_in C.machine self.old) printing }
        requires few { self.old.steps < 2 ^ 63 }
        ensures byte { thread_in C.machine self.new ≡ after_byte C.set (thread_in C.machine self.old) printing byte }
        ensures moved { IsBounded (thread_in C.machine self.old) → HasMoved (thread_in C.machine self.old) (thread_in C.machine self.new) }
    {
        self.output.push(byte);
        let loaded = printing.loaded + 1;
        if loaded < printing.len {
            self.printing = Some(Printing { loaded, ..printing });
            return;
        }
        self.printing = None;
        self.cpu.answer(printing.len);
        self.steps += 1;
    }
}

/// The load of the next byte of a write.
fn byte_ask(printing: Printing) -> Ask
    requires inside { printing.from + printing.loaded < 2 ^ 32 }
    ensures { result ≡ byte_load (printing.from + printing.loaded) }
{
    byte_at(printing.from + printing.loaded)
}

/// The load of the byte at an address.
#[inline]
fn byte_at(addr: u32) -> Ask
    ensures { result ≡ byte_load addr }
{
    Ask::Load(Place {
        addr,
        size: Size::B1,
    })
}
