//! The reply to an access.
ghost use Rattle.std.specs.Prelude.{◌≡◌};
ghost use Rattle.guest_calls.specs.Pairs.{reply_of};

use history::{Access, Deed};
use llsc_base::{STATUS_FAILED, STATUS_STORED};

/// The reply that a thread has to an access: a load's value, the status of a store-exclusive, and otherwise 0.
#[inline(always)]
pub fn reply_of(access: &Access) -> u64
    ensures { result ≡ reply_of access.now }
{
    match access.deed {
        Deed::Load | Deed::LoadEx => access.value,
        Deed::StoreEx => STATUS_STORED,
        Deed::StoreFail => STATUS_FAILED,
        Deed::Store | Deed::Clear => 0,
    }
}
