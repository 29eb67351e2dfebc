//! Why a store-exclusive failed.
ghost use Rattle.std.specs.Prelude.{◌≡◌, ◌≤◌};
ghost use Rattle.run_checker.specs.Verdict.{is_place};
ghost use Rattle.run_explainer.specs.Reasons.{came_back, why_by, why_kept};

use crate::events::Event;
use crate::reservations::{Reservation, Writes};

/// Why a store-exclusive failed, in the order in which reasons are looked for.
#[derive(Clone, Copy, Debug, PartialEq, Eq)]
pub enum Why {
    /// Its thread had made no load-exclusive.
    NoLoadExclusive,
    /// Its thread's last load-exclusive lies in another row.
    AnotherRow {
        load: Event,
    },
    /// The thread had ended the reservation itself.
    EndedItself {
        load: Event,
        own: Event,
    },
    /// Another thread had written the row. Whether the value had come back, so that a comparison of values would have let it succeed.
    Written {
        load: Event,
        writes: Writes,
        came_back: bool,
    },
    /// Nobody had written the row: another row of its class was written, or the class takes no more writes.
    Otherwise {
        load: Event,
    },
}

/// Whether a store-exclusive that failed has the place of a load-exclusive, and memory has there what that read.
fn came_back(load: &Event, failed: &Event) -> bool
    ensures { result ≡ came_back load.now failed.now }
{
    load.access.place == failed.access.place && failed.sighting.held == load.access.value
}

/// Why a store-exclusive failed whose thread had a reservation of its row.
fn why_kept(failed: &Event, reservation: &Reservation) -> Why
    ensures { result ≡ why_kept failed.now reservation.now reservation.now.own reservation.now.writes }
{
    let load = reservation.load;
    if let Some(own) = reservation.own {
        return Why::EndedItself { load, own };
    }
    match reservation.writes {
        Some(writes) => Why::Written {
            load,
            writes,
            came_back: came_back(&load, failed),
        },
        None => Why::Otherwise { load },
    }
}

/// Why a store-exclusive failed, by what came of its thread's last reservation.
pub(crate) fn why_by(granule: u32, failed: &Event, reservation: &Option<Reservation>) -> Why
    requires { granule ≤ 8 }
    ensures { result ≡ why_by granule failed.now reservation.now }
{
    let Some(reservation) = reservation else {
        return Why::NoLoadExclusive;
    };
    if reservation.load.row(granule) == failed.row(granule) {
        return why_kept(failed, reservation);
    }
    Why::AnotherRow {
        load: reservation.load,
    }
}
