//! What a thread tries by what it asks.
ghost use Rattle.std.specs.Prelude.{◌≡◌};
ghost use Rattle.guest_thread.specs.Accesses.{tried_by};

use history::{Access, Deed};
use llsc_base::{Ask, Place};

/// The access that a thread tries by what it asks: a load without a value, a store with its own, a CLREX of the place of one
/// byte at address 0.
#[inline(always)]
pub fn tried_by(thread: u32, ask: Ask) -> Access
    ensures { result ≡ tried_by thread ask }
{
    let (deed, place, value) = match ask {
        Ask::Load(place) => (Deed::Load, place, 0),
        Ask::LoadEx(place) => (Deed::LoadEx, place, 0),
        Ask::Store(place, value) => (Deed::Store, place, value),
        Ask::StoreEx(place, value) => (Deed::StoreEx, place, value),
        Ask::Clear => (Deed::Clear, Place::NOWHERE, 0),
    };
    Access {
        thread,
        deed,
        place,
        value,
    }
}
