//! The threads and the memory of a run that is checked.
ghost use Rattle.std.specs.Prelude.{◌≡◌, ◌≤◌, ◌<◌, ◌%◌, ◌∷◌, ◌++◌, [], ℕ, List, IfErr, IfOk, OnOk, length};
ghost use Rattle.std.specs.Bool.{OnFalse, OnTrue};
ghost use Rattle.llsc_base.specs.Limits.{most_budget};
ghost use Rattle.llsc_base.specs.Sizes.{Numbers};
ghost use Rattle.history.specs.Monitor.{IsAsLarge};
ghost use Rattle.guest_thread.specs.ThreadState.{IsReadyIn, thread_in};
ghost use Rattle.run_record.specs.Limits.{IsAccess};
ghost use Rattle.guest_thread.specs.Accesses.{monitor_of};
ghost use Rattle.run_checker.specs.Verdict.{IsRight, IsWrong};
ghost use Rattle.run_checker.specs.Sighted.{IsSighted};
ghost use Rattle.run_checker.specs.inner.Positions.{AreBrought, BringsOn, AllHaveEnded, IsBrought, MayGoOn, SomeAsks};

use crate::asked::is_asked;
use crate::serving::{held_at, serve};
use crate::sightings::Sighting;
use crate::verdicts::Reason;
use guest_calls::reply_of;
use guest_core::Core;
use guest_thread::{Guest, Turn};
use history::{Access, PlainMemory};
use llsc_base::{Image, MachineSize};
use std::alloc::{AllocError, Global};

/// The threads of a run, in order of number, and their memory, where the accesses so far have brought them.
#[derive(Drop)]
pub struct Checker<C: Core> {
    guests: Vec<Guest<C>>,
    memory: PlainMemory,
}

impl<C: Core> Checker<C> {
    /// The threads of an image at their start, and memory as it begins.
    pub fn new(alloc: Global, image: &Image, size: &MachineSize) -> Result<Checker<C>, AllocError>
        requires whole { length image.now.bytes ≡ size.now.mem }
        ensures ready { IfOk result (λ checker. (budget : ℕ) → MayGoOn C.machine (length image.now.bytes) budget checker) }
        ensures brought { IfOk result (λ checker. (budget : ℕ) → AreBrought C.set C.machine image.now size.now budget [] checker) }
        ensures threads { IfOk result (λ checker. length checker.guests.items ≡ size.now.threads) }
    {
        let (threads, mem) = (size.threads(), size.mem());
        prove!(mem <= 16_777_216);
        let mut guests = Vec::with_capacity(alloc, threads as usize)?;
        for t in 0..threads {
            guests.push(Guest::start(alloc, image, size, t)?)?;
        }
        let memory = PlainMemory::sized(alloc, image.bytes(), size)?;
        Ok(Checker { guests, memory })
    }

    /// Makes an access as it is recorded, and gives where it stands.
    ///
    /// # Errors
    ///
    /// Why it is wrong.
    pub fn step(&mut self, image: &Image, budget: u64, access: Access) -> Result<Sighting, Reason>
        requires ready { MayGoOn C.machine (length image.now.bytes) budget self.old }
        requires budget { budget ≤ most_budget }
        requires access { IsAccess (length self.old.memory.marks) access }
        ensures wrong { IfErr result (λ why. (size : Numbers) (early : List Access) → AreBrought C.set C.machine image.now size budget early self.old
            → IsWrong C.set image.now size budget early access why) }
        ensures right { IfOk result (λ sighting. (size : Numbers) (early : List Access) → AreBrought C.set C.machine image.now size budget early self.old
            → IsRight C.set image.now size budget early access × IsSighted C.set image.now size budget early access sighting
            × AreBrought C.set C.machine image.now size budget (early ++ access ∷ []) self.new) }
        ensures ready { OnOk result (MayGoOn C.machine (length image.now.bytes) budget self.new) }
        ensures aligned { IfOk result (λ sighting. sighting.pc % 4 ≡ 0) }
        ensures size { IsAsLarge self.old.memory self.new.memory }
    {
        let guest = &mut self.guests[access.thread as usize];
        make(guest, &mut self.memory, image, budget, access)
    }

    /// Whether some thread still asks for an access.
    pub fn asks(&mut self, image: &Image, budget: u64) -> bool
        requires ready { MayGoOn C.machine (length image.now.bytes) budget self.old }
        requires budget { budget ≤ most_budget }
        ensures asks { OnTrue result ((size : Numbers) (early : List Access) → AreBrought C.set C.machine image.now size budget early self.old
            → SomeAsks C.set image.now size budget early (length self.old.guests.items)) }
        ensures stopped { OnFalse result ((size : Numbers) (early : List Access) → AreBrought C.set C.machine image.now size budget early self.old
            → AllHaveEnded C.set image.now size budget early (length self.old.guests.items)) }
    {
        for guest in self.guests.iter_mut() {
            if let Turn::Asks(_) = guest.next(image, budget) {
                return true;
            }
        }
        false
    }
}

/// Makes an access of a thread as it is recorded, and gives where it stands, or says why it is wrong.
fn make<C: Core>(
    guest: &mut Guest<C>,
    memory: &mut PlainMemory,
    image: &Image,
    budget: u64,
    access: Access,
) -> Result<Sighting, Reason>
    requires ready { IsReadyIn (length image.now.bytes) budget (thread_in C.machine guest.old) }
    requires small { length image.now.bytes ≤ 16777216 }
    requires budget { budget ≤ most_budget }
    requires bytes { length memory.old.memory ≡ length image.now.bytes }
    requires access { IsAccess (length memory.old.marks) access }
    ensures wrong { IfErr result (λ why. (size : Numbers) (early : List Access) → IsBrought C.set C.machine image.now size budget early access.thread guest.old
        → memory.old ≡ monitor_of image.now size early → IsWrong C.set image.now size budget early access why) }
    ensures right { IfOk result (λ sighting. (size : Numbers) (early : List Access) → IsBrought C.set C.machine image.now size budget early access.thread guest.old
        → memory.old ≡ monitor_of image.now size early → BringsOn C.set C.machine image.now size budget early access sighting guest.new memory.new) }
    ensures ready { OnOk result (IsReadyIn (length image.now.bytes) budget (thread_in C.machine guest.new)) }
    ensures aligned { IfOk result (λ sighting. sighting.pc % 4 ≡ 0) }
    ensures size { IsAsLarge memory.old memory.new }
{
    let Turn::Asks(ask) = guest.next(image, budget) else {
        return Err(Reason::AfterStop);
    };
    if !is_asked(ask, access) {
        return Err(Reason::NotAsked);
    }
    let sighting = Sighting {
        pc: guest.pc(),
        steps: guest.steps(),
        held: held_at(memory, &access),
    };
    if let Some(reason) = serve(memory, access) {
        return Err(reason);
    }
    guest.give(reply_of(&access));
    Ok(sighting)
}
