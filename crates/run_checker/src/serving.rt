//! An access of a record, made in memory.
ghost use Rattle.std.specs.Prelude.{◌≡◌, ◌≢◌, ◌≤◌, ◌+◌, IfSome, IfNone, length};
ghost use Rattle.llsc_base.specs.Memory.{size_bytes};
ghost use Rattle.history.specs.Monitor.{IsAsLarge};
ghost use Rattle.run_record.specs.Limits.{IsAccess, IsFormed};
ghost use Rattle.run_checker.specs.Sighted.{held_at};
ghost use Rattle.run_checker.specs.inner.Serving.{StandsAgainst, IsMadeAsRecorded};

use crate::verdicts::Reason;
use history::{Access, Deed, PlainMemory};

/// Makes an access in memory as it is recorded. If memory has another value, or the thread isn't marked, says so.
pub fn serve(memory: &mut PlainMemory, access: Access) -> Option<Reason>
    requires access { IsAccess (length memory.old.marks) access }
    requires inside { access.deed ≢ Deed.Clear → access.place.addr + size_bytes access.place.size ≤ length memory.old.memory }
    ensures refused { IfSome result (λ reason. StandsAgainst memory.old access reason) }
    ensures served { IfNone result (IsMadeAsRecorded memory.old access memory.new) }
    ensures size { IsAsLarge memory.old memory.new }
{
    let made = memory.make(access);
    if made.deed != access.deed {
        return Some(Reason::NoReservation);
    }
    if made.value != access.value {
        return Some(Reason::WrongValue);
    }
    None
}

/// Of a store-exclusive that failed the value that memory has at its place, and of any other access 0.
#[inline]
pub fn held_at(memory: &PlainMemory, access: &Access) -> u64
    requires formed { IsFormed access.now }
    requires inside { access.now.deed ≢ Deed.Clear → access.now.place.addr + size_bytes access.now.place.size ≤ length memory.now.memory }
    ensures { result ≡ held_at memory.now access.now }
{
    match access.deed {
        Deed::StoreFail => memory.load(access.place),
        _ => 0,
    }
}
