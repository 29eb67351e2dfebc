//! Threads that take turns on one memory.
ghost use Rattle.std.specs.Prelude.{◌≡◌, ◌⊎◌, ◌<◌, ◌≤◌, [], IfErr, IfOk, length};
ghost use Rattle.guest_machine.specs.inner.Seats.{AreUnderWay, left_of};
ghost use Rattle.llsc_base.specs.Limits.{most_budget};
ghost use Rattle.guest_machine.specs.Turns.{IsTooLong};

use crate::drawing::{drawn, take_out, turn_of};
use crate::seats::{Seat, numbers, seats};
use crate::serving::serve;
use crate::traces::TraceFault;
use guest_calls::reply_of;
use guest_core::Core;
use guest_thread::Turn;
use history::{Access, PlainMemory};
use llsc_base::{Image, MachineSize};
use run_record::MOST_ACCESSES;
use std::alloc::{AllocError, Global};

/// What is traced: the program, the machine, the number that the turns begin with, and each thread's steps.
#[derive(Clone, Copy)]
pub(crate) struct Plan<'a> {
    pub(crate) image: &'a Image,
    pub(crate) size: &'a MachineSize,
    pub(crate) seed: u64,
    pub(crate) budget: u64,
}

/// The threads so far: the last number that was drawn, the threads that have not stopped, all threads in order of
/// number, memory, and the accesses.
#[derive(Drop)]
pub(crate) struct Turns<C: Core> {
    number: u64,
    live: Vec<u32>,
    pub(crate) seats: Vec<Seat<C>>,
    memory: PlainMemory,
    pub(crate) accesses: Vec<Access>,
}

impl<C: Core> Turns<C> {
    /// Before the first turn.
    pub(crate) fn new(alloc: Global, plan: &Plan) -> Result<Turns<C>, AllocError>
        requires whole { length plan.now.image.now.bytes ≡ plan.now.size.now.mem }
        ensures small { length plan.now.image.now.bytes ≤ 16777216 }
        ensures under_way { IfOk result (λ turns. AreUnderWay C.set C.machine plan.now.image.now plan.now.size.now plan.now.seed plan.now.budget turns) }
    {
        let (threads, mem) = (plan.size.threads(), plan.size.mem());
        prove!(mem <= 16_777_216);
        Ok(Turns {
            number: plan.seed,
            live: numbers(alloc, threads)?,
            seats: seats(alloc, plan.image, plan.size)?,
            memory: PlainMemory::sized(alloc, plan.image.bytes(), plan.size)?,
            accesses: Vec::new(alloc),
        })
    }

    /// One turn: its thread makes one access, or stops.
    fn turn(&mut self, plan: &Plan) -> Result<(), TraceFault>
        requires under_way { AreUnderWay C.set C.machine plan.now.image.now plan.now.size.now plan.now.seed plan.now.budget self.old }
        requires some { 1 ≤ length self.old.live.items }
        requires small { length plan.now.image.now.bytes ≤ 16777216 }
        requires budget { plan.now.budget ≤ most_budget }
        ensures goes_on { IfOk result (λ _. AreUnderWay C.set C.machine plan.now.image.now plan.now.size.now plan.now.seed plan.now.budget self.new) }
        ensures nearer { IfOk result (λ _. left_of self.new < left_of self.old) }
        ensures fault { IfErr result (λ fault. ((fault ≡ TraceFault.TooLong) × IsTooLong C.set plan.now.image.now plan.now.size.now plan.now.seed plan.now.budget)
            ⊎ (fault ≡ TraceFault.Memory)) }
    {
        self.number = drawn(self.number);
        let t = turn_of(self.number, &self.live);
        let seat = &mut self.seats[t as usize];
        match seat.guest.next(plan.image, plan.budget) {
            Turn::Asks(ask) => {
                if self.accesses.len() == MOST_ACCESSES {
                    return Err(TraceFault::TooLong);
                }
                let access = serve(&mut self.memory, t, ask);
                let Ok(()) = self.accesses.push(access) else {
                    return Err(TraceFault::Memory);
                };
                seat.guest.give(reply_of(&access));
                Ok(())
            }
            Turn::Ended(stop) => {
                seat.stop = Some(stop);
                take_out(t, &mut self.live);
                Ok(())
            }
        }
    }

    /// All turns, up to the last thread's stop.
    pub(crate) fn run(&mut self, plan: &Plan) -> Result<(), TraceFault>
        requires under_way { AreUnderWay C.set C.machine plan.now.image.now plan.now.size.now plan.now.seed plan.now.budget self.old }
        requires small { length plan.now.image.now.bytes ≤ 16777216 }
        requires budget { plan.now.budget ≤ most_budget }
        ensures over { IfOk result (λ _. AreUnderWay C.set C.machine plan.now.image.now plan.now.size.now plan.now.seed plan.now.budget self.new × (self.new.live.items ≡ [])) }
        ensures fault { IfErr result (λ fault. ((fault ≡ TraceFault.TooLong) × IsTooLong C.set plan.now.image.now plan.now.size.now plan.now.seed plan.now.budget)
            ⊎ (fault ≡ TraceFault.Memory)) }
    {
        while !self.live.is_empty() {
            self.turn(plan)?;
        }
        Ok(())
    }
}
