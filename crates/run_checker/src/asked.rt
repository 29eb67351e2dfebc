//! Whether an access is what was asked.
ghost use Rattle.std.specs.Prelude.{◌≡◌};
ghost use Rattle.run_checker.specs.Verdict.{is_asked};

use history::{Access, Deed};
use llsc_base::Ask;

/// Whether an access is what was asked: its deed, its place, and the value that is stored.
pub fn is_asked(ask: Ask, access: Access) -> bool
    ensures { result ≡ is_asked ask access }
{
    match (ask, access.deed) {
        (Ask::Load(place), Deed::Load) | (Ask::LoadEx(place), Deed::LoadEx) => {
            place == access.place
        }
        (Ask::Store(place, value), Deed::Store)
        | (Ask::StoreEx(place, value), Deed::StoreEx | Deed::StoreFail) => {
            place == access.place && value == access.value
        }
        (Ask::Clear, Deed::Clear) => true,
        _ => false,
    }
}
