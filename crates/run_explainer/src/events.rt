//! The accesses of a record, each with its index and with where it stands.
ghost use Rattle.std.specs.Prelude.{◌≡◌, ◌∷◌, ◌+◌, ◌<◌, ◌≤◌, ◌^◌, ◌%◌, [], All, IfNone, IfSome, length};
ghost use Rattle.run_explainer.specs.Events.{events_of, is_by, is_ending, is_write, row_at};
ghost use Rattle.run_explainer.specs.inner.Steps.{is_attempt};

use history::{Access, Deed};
use run_checker::Sighting;
use std::marker::Model;

/// An access of a record, with its index there, counted from 0, and with where it stands.
#[derive(Clone, Copy, Debug, PartialEq, Eq)]
pub struct Event {
    pub index: u32,
    pub access: Access,
    pub sighting: Sighting,
}

impl Event {
    /// Whether it is a thread's.
    pub(crate) fn is_by(&self, thread: u32) -> bool
        ensures { result ≡ is_by thread self.now }
    {
        self.access.thread == thread
    }

    /// The row in which its place lies.
    pub(crate) fn row(&self, granule: u32) -> u32
        requires { granule ≤ 8 }
        ensures { result ≡ row_at granule self.now }
    {
        self.access.place.row(granule)
    }
}

/// Whether a deed is a write.
pub(crate) fn is_write(deed: Deed) -> bool
    ensures { result ≡ is_write deed }
{
    match deed {
        Deed::Store | Deed::StoreEx => true,
        Deed::Load | Deed::LoadEx | Deed::StoreFail | Deed::Clear => false,
    }
}

/// Whether a deed is a store-exclusive, whether or not it succeeded.
pub(crate) fn is_attempt(deed: Deed) -> bool
    ensures { result ≡ is_attempt deed }
{
    match deed {
        Deed::StoreEx | Deed::StoreFail => true,
        Deed::Load | Deed::LoadEx | Deed::Store | Deed::Clear => false,
    }
}

/// Whether a deed ends its thread's reservation wherever that lies.
pub(crate) fn is_ending(deed: Deed) -> bool
    ensures { result ≡ is_ending deed }
{
    match deed {
        Deed::StoreEx | Deed::StoreFail | Deed::Clear => true,
        Deed::Load | Deed::LoadEx | Deed::Store => false,
    }
}

/// The events of a record that are left.
#[derive(Drop)]
pub(crate) struct Events<'r> {
    accesses: &'r [Access],
    sightings: &'r [Sighting],
    index: u32,
}

impl<'r> Model for Events<'r> {
    ghost use Rattle.std.specs.Prelude.{◌≡◌, ◌+◌, ◌<◌, ◌^◌, ◌%◌, All, List, length};
    ghost use Rattle.run_explainer.specs.Events.{events_from};
    ghost use Rattle.run_explainer.specs.declared.events.Event.{Event as EventSpec};

    ghost Value = { List EventSpec };

    ghost view = { λ e. events_from e.index e.accesses.now e.sightings.now };

    ghost invariant = { λ e. (e.index + length e.accesses.now < 2 ^ 32) × All (λ sighting. sighting.pc % 4 ≡ 0) e.sightings.now };
}

impl<'r> Events<'r> {
    /// The events of accesses with these sightings.
    pub(crate) fn new(accesses: &'r [Access], sightings: &'r [Sighting]) -> Events<'r>
        requires few { length accesses.now < 2 ^ 32 }
        requires aligned { All (λ sighting. sighting.pc % 4 ≡ 0) sightings.now }
        ensures { result ≡ events_of accesses.now sightings.now }
    {
        Events {
            accesses,
            sightings,
            index: 0,
        }
    }

    /// The next event, if one is left.
    pub(crate) fn next(&mut self) -> Option<Event>
        ensures some { IfSome result (λ event. self.old ≡ event ∷ self.new) }
        ensures none { IfNone result (self.old ≡ []) }
        ensures aligned { IfSome result (λ event. event.sighting.pc % 4 ≡ 0) }
    {
        let (access, accesses) = self.accesses.split_first()?;
        let (sighting, sightings) = self.sightings.split_first()?;
        let event = Event {
            index: self.index,
            access: *access,
            sighting: *sighting,
        };
        *self = Events {
            accesses,
            sightings,
            index: self.index + 1,
        };
        Some(event)
    }
}
