//! What is known of the threads of a record and of its store-exclusives, event by event.
ghost use Rattle.std.specs.Prelude.{◌≡◌, ◌<◌, ◌≤◌, ◌%◌, ◌/◌, ◌^◌, ◌∷◌, ◌++◌, [], List, Some, true, false, IfOk, length};
ghost use Rattle.run_explainer.specs.Attempts.{outcome_of};
ghost use Rattle.run_explainer.specs.Explaining.{HasSeen, HasTallied};
ghost use Rattle.run_explainer.specs.inner.Steps.{HasSeenFew, HasTalliedFew, is_attempt};
ghost use Rattle.run_explainer.specs.declared.attempts.Attempt.{Attempt as AttemptSpec};
ghost use Rattle.run_explainer.specs.declared.events.Event.{Event as EventSpec};

use crate::attempts::Outcome;
use crate::events::Event;
use crate::reasons::why_by;
use crate::reservations::{Reservation, see};
use crate::tallies::Tally;
use history::Deed;
use std::alloc::{AllocError, Global};

/// What is known of each thread's last reservation, and of the store-exclusives of each instruction and of all.
#[derive(Drop)]
pub(crate) struct Explainer {
    granule: u32,
    reservations: Vec<Option<Reservation>>,
    tallies: Vec<Tally>,
    all: Tally,
}

impl Explainer {
    /// Nothing is known yet of so many threads, whose instructions stand in `mem` bytes of memory.
    ///
    /// # Errors
    ///
    /// `AllocError` is want of memory.
    pub(crate) fn new(
        alloc: Global,
        granule: u32,
        threads: u32,
        mem: u32,
    ) -> Result<Explainer, AllocError>
        ensures seen { IfOk result (λ explainer. HasSeen explainer []) }
        ensures granule { IfOk result (λ explainer. explainer.granule ≡ granule) }
        ensures threads { IfOk result (λ explainer. length explainer.reservations.items ≡ threads) }
        ensures words { IfOk result (λ explainer. length explainer.tallies.items ≡ mem / 4) }
    {
        Ok(Explainer {
            granule,
            reservations: vec![in alloc; None; threads as usize]?,
            tallies: vec![in alloc; Tally::none(); (mem / 4) as usize]?,
            all: Tally::none(),
        })
    }

    /// The tally of each instruction's store-exclusives, by its address in words.
    pub(crate) fn tallies(&self) -> &[Tally]
        ensures { result.now ≡ self.now.tallies.items }
    {
        self.tallies.as_slice()
    }

    /// The tally of all store-exclusives.
    pub(crate) fn all(&self) -> &Tally
        ensures { result.now ≡ self.now.all }
    {
        &self.all
    }

    /// What comes of a store-exclusive.
    fn outcome(&self, event: &Event) -> Outcome
        requires granule { self.now.granule ≤ 8 }
        requires thread { event.now.access.thread < length self.now.reservations.items }
        requires attempt { is_attempt event.now.access.deed ≡ true }
        ensures { (seen : List EventSpec) → HasSeen self.now seen → outcome_of self.now.granule seen event.now ≡ Some result }
    {
        if event.access.deed == Deed::StoreEx {
            return Outcome::Stored;
        }
        let reservation = &self.reservations[event.access.thread as usize];
        Outcome::Failed(why_by(self.granule, event, reservation))
    }

    /// Counts a store-exclusive, of its instruction and of all.
    fn count(&mut self, event: &Event, outcome: &Outcome)
        requires few { HasTalliedFew self.old }
        requires aligned { event.now.sighting.pc % 4 ≡ 0 }
        ensures tallied { (attempts : List AttemptSpec) → HasTallied self.old attempts
            → HasTallied self.new (attempts ++ record { event = event.now; outcome = outcome.now } ∷ []) }
        ensures reservations { self.new.reservations ≡ self.old.reservations }
        ensures granule { self.new.granule ≡ self.old.granule }
        ensures words { length self.new.tallies.items ≡ length self.old.tallies.items }
    {
        self.all.count(outcome);
        let word = (event.sighting.pc / 4) as usize;
        if word < self.tallies.len() {
            self.tallies[word].count(outcome);
        }
    }

    /// Takes in an event that is no store-exclusive.
    pub(crate) fn take_in(&mut self, event: &Event)
        requires granule { self.old.granule ≤ 8 }
        requires thread { event.now.access.thread < length self.old.reservations.items }
        requires few { HasSeenFew self.old }
        requires numbers { length self.old.reservations.items < 2 ^ 32 }
        requires other { is_attempt event.now.access.deed ≡ false }
        ensures seen { (seen : List EventSpec) → HasSeen self.old seen → HasSeen self.new (seen ++ event.now ∷ []) }
        ensures granule { self.new.granule ≡ self.old.granule }
        ensures threads { length self.new.reservations.items ≡ length self.old.reservations.items }
        ensures words { length self.new.tallies.items ≡ length self.old.tallies.items }
    {
        see(&mut self.reservations, self.granule, event);
    }

    /// Takes in a store-exclusive, and gives what comes of it.
    pub(crate) fn take_in_attempt(&mut self, event: &Event) -> Outcome
        requires granule { self.old.granule ≤ 8 }
        requires thread { event.now.access.thread < length self.old.reservations.items }
        requires aligned { event.now.sighting.pc % 4 ≡ 0 }
        requires few { HasSeenFew self.old }
        requires numbers { length self.old.reservations.items < 2 ^ 32 }
        requires attempt { is_attempt event.now.access.deed ≡ true }
        ensures outcome { (seen : List EventSpec) → HasSeen self.old seen → outcome_of self.old.granule seen event.now ≡ Some result }
        ensures seen { (seen : List EventSpec) → HasSeen self.old seen → HasSeen self.new (seen ++ event.now ∷ []) }
        ensures granule { self.new.granule ≡ self.old.granule }
        ensures threads { length self.new.reservations.items ≡ length self.old.reservations.items }
        ensures words { length self.new.tallies.items ≡ length self.old.tallies.items }
    {
        let outcome = self.outcome(event);
        self.count(event, &outcome);
        see(&mut self.reservations, self.granule, event);
        outcome
    }
}
