//! What came of the reservation that a thread had by its last load-exclusive.
ghost use Rattle.std.specs.Prelude.{◌≡◌, ◌+◌, ◌<◌, ◌≤◌, ◌^◌, ◌∷◌, ◌++◌, [], List, Some, false, length, slice_index_or, IfSome};
ghost use Rattle.run_explainer.specs.Events.{is_write};
ghost use Rattle.run_explainer.specs.Reservations.{gives_up, takes_away};
ghost use Rattle.run_explainer.specs.Explaining.{Knows};
ghost use Rattle.run_explainer.specs.inner.Steps.{CanCount, KnowsFew, after_event, one_more, reservation_after};
ghost use Rattle.run_explainer.specs.declared.events.Event.{Event as EventSpec};

use crate::events::{Event, is_ending, is_write};
use history::Deed;

/// The writes of a row by other threads than the one that had reserved it: the first, the last, and how many there were.
#[derive(Clone, Copy, Debug, PartialEq, Eq)]
pub struct Writes {
    pub first: Event,
    pub last: Event,
    pub count: u32,
}

/// What came of a reservation.
#[derive(Clone, Copy, Debug, PartialEq, Eq)]
pub struct Reservation {
    /// The load-exclusive by which its thread had it.
    pub load: Event,
    /// The first event by which the thread ended it itself.
    pub own: Option<Event>,
    /// The writes of its row by other threads.
    pub writes: Option<Writes>,
}

/// Whether a thread ends its reservation of a row by an event.
fn gives_up(granule: u32, thread: u32, row: u32, event: &Event) -> bool
    requires { granule ≤ 8 }
    ensures { result ≡ gives_up granule thread row event.now }
{
    event.is_by(thread)
        && (is_ending(event.access.deed)
            || (is_write(event.access.deed) && event.row(granule) == row))
}

/// Whether another thread writes a row by an event.
fn takes_away(granule: u32, thread: u32, row: u32, event: &Event) -> bool
    requires { granule ≤ 8 }
    ensures { result ≡ takes_away granule thread row event.now }
{
    !event.is_by(thread) && (is_write(event.access.deed) && event.row(granule) == row)
}

impl Reservation {
    /// Takes in an event that is no load-exclusive of the thread.
    fn take_in(&mut self, granule: u32, thread: u32, event: &Event)
        requires granule { granule ≤ 8 }
        requires few { IfSome self.old.writes (λ writes. writes.count + 1 < 2 ^ 32) }
        ensures { self.new ≡ after_event granule thread self.old event.now }
    {
        let row = self.load.row(granule);
        if self.own.is_none() && gives_up(granule, thread, row, event) {
            self.own = Some(*event);
        }
        if takes_away(granule, thread, row, event) {
            self.count_write(event);
        }
    }

    /// Counts one write more.
    fn count_write(&mut self, event: &Event)
        requires { IfSome self.old.writes (λ writes. writes.count + 1 < 2 ^ 32) }
        ensures load { self.new.load ≡ self.old.load }
        ensures own { self.new.own ≡ self.old.own }
        ensures writes { self.new.writes ≡ Some (one_more self.old.writes event.now) }
    {
        if let Some(writes) = &mut self.writes {
            writes.last = *event;
            writes.count += 1;
            return;
        }
        self.writes = Some(Writes {
            first: *event,
            last: *event,
            count: 1,
        });
    }
}

/// Takes an event in to what is known of a thread.
fn take_in(reservation: &mut Option<Reservation>, granule: u32, thread: u32, event: &Event)
    requires granule { granule ≤ 8 }
    requires few { CanCount reservation.old }
    ensures { reservation.new ≡ reservation_after granule thread reservation.old event.now }
{
    if event.access.deed == Deed::LoadEx && event.is_by(thread) {
        *reservation = Some(Reservation {
            load: *event,
            own: None,
            writes: None,
        });
        return;
    }
    if let Some(known) = reservation {
        known.take_in(granule, thread, event);
    }
}

/// Takes an event in by which no other thread's reservation ends.
fn see_own(reservations: &mut [Option<Reservation>], granule: u32, event: &Event)
    requires granule { granule ≤ 8 }
    requires few { KnowsFew granule reservations.old }
    requires thread { event.now.access.thread < length reservations.old }
    requires harmless { is_write event.now.access.deed ≡ false }
    ensures length { length reservations.new ≡ length reservations.old }
    ensures seen { (seen : List EventSpec) → Knows granule reservations.old seen → Knows granule reservations.new (seen ++ event.now ∷ []) }
{
    let thread = event.access.thread;
    take_in(&mut reservations[thread as usize], granule, thread, event);
}

/// Takes a write in, by which the reservations of all threads may end.
fn see_write(reservations: &mut [Option<Reservation>], granule: u32, event: &Event)
    requires granule { granule ≤ 8 }
    requires few { KnowsFew granule reservations.old }
    requires numbers { length reservations.old < 2 ^ 32 }
    ensures length { length reservations.new ≡ length reservations.old }
    ensures seen { (seen : List EventSpec) → Knows granule reservations.old seen → Knows granule reservations.new (seen ++ event.now ∷ []) }
{
    for thread in 0..reservations.len() {
        take_in(&mut reservations[thread], granule, thread as u32, event);
    }
}

/// Takes an event in to what is known of all threads, in order of number.
pub(crate) fn see(reservations: &mut [Option<Reservation>], granule: u32, event: &Event)
    requires granule { granule ≤ 8 }
    requires few { KnowsFew granule reservations.old }
    requires thread { event.now.access.thread < length reservations.old }
    requires numbers { length reservations.old < 2 ^ 32 }
    ensures length { length reservations.new ≡ length reservations.old }
    ensures seen { (seen : List EventSpec) → Knows granule reservations.old seen → Knows granule reservations.new (seen ++ event.now ∷ []) }
{
    match event.access.deed {
        Deed::Load => {}
        Deed::LoadEx | Deed::StoreFail | Deed::Clear => see_own(reservations, granule, event),
        Deed::Store | Deed::StoreEx => see_write(reservations, granule, event),
    }
}
