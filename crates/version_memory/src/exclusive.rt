//! The steps of exclusive accesses.
ghost use Rattle.std.specs.Prelude.{◌≡◌, ◌≢◌, ◌*◌, ◌%◌, ◌^◌, ◌<◌, ◌≤◌, ℕ, None, IfSome, [], ◌∷◌, true};
ghost use Rattle.llsc_base.specs.Memory.{row_of};
ghost use Rattle.row_bytes.specs.Cell.{value_in_cell};
ghost use Rattle.history.specs.Operation.{clear, entries_of_operation, load_missed, load_watched};
ghost use Rattle.history.specs.declared.entry.Cause.{Cause};
ghost use Rattle.version_rule.specs.declared.hands.Doing.TheVariants.{Rest, Claimed, Looking};
ghost use Rattle.version_rule.specs.declared.hands.Reserve.TheVariants.{Nothing, Row, Several};
ghost use Rattle.version_rule.specs.Hands.{hand};
ghost use Rattle.version_rule.specs.Kept.{origin_of};
ghost use Rattle.shared_memory.specs.Told.{Goes};
ghost use Rattle.shared_memory.specs.inner.Told.{ask};
ghost use Rattle.version_rule.specs.Told.{Decides, HasLost, IsDisturbed, IsUndisturbedAt};
ghost use Rattle.shared_memory.specs.inner.Targets.{IsTarget};
ghost use Rattle.version_memory.specs.inner.Passes.{MayStep};
ghost use Rattle.version_memory.specs.inner.Stored.{HasFailed, HasStoredEx};

use crate::plain::write_held;
use crossbeam_utils::Backoff;
use history::Entry;
use shared_memory::{Asks, Target};
use version_rule::{
    Absent, ClaimEx, Clear, Limited, ReadEx, TryWatch, VersionSeat, VersionShared, Watch,
};

/// What a load-exclusive has found.
#[derive(Clone, Copy)]
pub struct Linked {
    /// The cell of its place.
    pub cell: u64,
    /// The tag of the place's class. Where it is even, the reservation has it as its version; else there is none.
    pub tag: u64,
}

/// A load-exclusive begins, with a reservation where the tag of its class is even.
#[inline]
fn watch<J: Asks>(shared: &VersionShared, seat: &mut VersionSeat, target: Target) -> u64
    requires asked { J.ask ≡ ask (origin_of shared.now.key) target.place target.value }
    requires ready { MayStep shared.now seat.old }
    requires rest { seat.old.me.0.doing.doing ≡ Rest }
    requires target { IsTarget shared.now.key target }
    ensures reserved { result % 2 ≡ 0
        → Goes (origin_of shared.now.key) seat.old.me (Entry.Watch seat.old.me.0.lead target.place ∷ [])
        (hand (Looking target.place) (Row (row_of shared.now.key.size.granule target.place) result)) seat.new.me }
    ensures missed { result % 2 ≢ 0
        → Goes (origin_of shared.now.key) seat.old.me (Entry.Miss seat.old.me.0.lead target.place ∷ [])
        (hand (Looking target.place) Nothing) seat.new.me }
    ensures most { result ≤ 2 * shared.now.key.size.limit }
    ensures looking { seat.new.me.0.doing.doing ≡ Looking target.place }
    ensures ready { MayStep shared.now seat.new }
    ensures home { seat.new.table_id ≡ seat.old.table_id }
{
    shared.load::<Watch<J>>(seat, target.tag)
}

/// The tag of the class of a place; where it is even, a load-exclusive has begun.
#[inline]
fn try_watch<J: Asks>(shared: &VersionShared, seat: &mut VersionSeat, target: Target) -> u64
    requires asked { J.ask ≡ ask (origin_of shared.now.key) target.place target.value }
    requires ready { MayStep shared.now seat.old }
    requires rest { seat.old.me.0.doing.doing ≡ Rest }
    requires target { IsTarget shared.now.key target }
    ensures reserved { result % 2 ≡ 0
        → Goes (origin_of shared.now.key) seat.old.me (Entry.Watch seat.old.me.0.lead target.place ∷ [])
        (hand (Looking target.place) (Row (row_of shared.now.key.size.granule target.place) result)) seat.new.me }
    ensures not_yet { result % 2 ≢ 0 → Goes (origin_of shared.now.key) seat.old.me [] seat.old.me.0.doing seat.new.me }
    ensures most { result ≤ 2 * shared.now.key.size.limit }
    ensures ready { MayStep shared.now seat.new }
    ensures home { seat.new.table_id ≡ seat.old.table_id }
{
    shared.load::<TryWatch<J>>(seat, target.tag)
}

/// A load-exclusive begins once it finds no write of its class in flight, and after so many looks at the next one in any case,
/// without a reservation where a write is in flight then too.
#[inline]
fn watch_within<J: Asks>(
    shared: &VersionShared,
    seat: &mut VersionSeat,
    target: Target,
    looks: u32,
) -> u64
    requires asked { J.ask ≡ ask (origin_of shared.now.key) target.place target.value }
    requires ready { MayStep shared.now seat.old }
    requires rest { seat.old.me.0.doing.doing ≡ Rest }
    requires target { IsTarget shared.now.key target }
    ensures reserved { result % 2 ≡ 0
        → Goes (origin_of shared.now.key) seat.old.me (Entry.Watch seat.old.me.0.lead target.place ∷ [])
        (hand (Looking target.place) (Row (row_of shared.now.key.size.granule target.place) result)) seat.new.me }
    ensures missed { result % 2 ≢ 0
        → Goes (origin_of shared.now.key) seat.old.me (Entry.Miss seat.old.me.0.lead target.place ∷ [])
        (hand (Looking target.place) Nothing) seat.new.me }
    ensures most { result ≤ 2 * shared.now.key.size.limit }
    ensures looking { seat.new.me.0.doing.doing ≡ Looking target.place }
    ensures ready { MayStep shared.now seat.new }
    ensures home { seat.new.table_id ≡ seat.old.table_id }
{
    let backoff = Backoff::new();
    for _ in 0..looks {
        let tag = try_watch::<J>(shared, seat, target);
        if tag % 2 == 0 {
            return tag;
        }
        backoff.spin();
    }
    watch::<J>(shared, seat, target)
}

/// It loads the cell.
#[inline]
fn read_ex<J: Asks>(shared: &VersionShared, seat: &mut VersionSeat, target: Target) -> u64
    requires asked { J.ask ≡ ask (origin_of shared.now.key) target.place target.value }
    requires ready { MayStep shared.now seat.old }
    requires looking { seat.old.me.0.doing.doing ≡ Looking target.place }
    requires target { IsTarget shared.now.key target }
    ensures goes { Goes (origin_of shared.now.key) seat.old.me
        (Entry.Read seat.old.me.0.lead target.place (value_in_cell result target.place) true ∷ [])
        (hand Rest seat.old.me.0.doing.reserve) seat.new.me }
    ensures home { seat.new.table_id ≡ seat.old.table_id }
{
    shared.load::<ReadEx<J>>(seat, target.word)
}

/// A load-exclusive, in the whole, which waits for its class as long as so many looks take.
#[inline]
pub fn load_ex_cell<J: Asks>(
    shared: &VersionShared,
    seat: &mut VersionSeat,
    target: Target,
    looks: u32,
) -> Linked
    requires asked { J.ask ≡ ask (origin_of shared.now.key) target.place target.value }
    requires ready { MayStep shared.now seat.old }
    requires rest { seat.old.me.0.doing.doing ≡ Rest }
    requires target { IsTarget shared.now.key target }
    ensures reserved { result.tag % 2 ≡ 0
        → Goes (origin_of shared.now.key) seat.old.me
        (entries_of_operation seat.old.me.0.lead (load_watched target.place (value_in_cell result.cell target.place)))
        (hand Rest (Row (row_of shared.now.key.size.granule target.place) result.tag)) seat.new.me }
    ensures missed { result.tag % 2 ≢ 0
        → Goes (origin_of shared.now.key) seat.old.me
        (entries_of_operation seat.old.me.0.lead (load_missed target.place (value_in_cell result.cell target.place)))
        (hand Rest Nothing) seat.new.me }
    ensures short { result.tag ≤ 2 ^ 63 }
    ensures home { seat.new.table_id ≡ seat.old.table_id }
{
    let tag = watch_within::<J>(shared, seat, target, looks);
    let cell = read_ex::<J>(shared, seat, target);
    Linked { cell, tag }
}

/// A store-exclusive is decided: it has claimed its class where the tag was still the version of its reservation.
#[inline]
fn claim_ex<J: Asks>(
    shared: &VersionShared,
    seat: &mut VersionSeat,
    target: Target,
    version: u64,
) -> u64
    requires asked { J.ask ≡ ask (origin_of shared.now.key) target.place target.value }
    requires ready { MayStep shared.now seat.old }
    requires reserved { seat.old.me.0.doing ≡ hand Rest (Row (row_of shared.now.key.size.granule target.place) version) }
    requires target { IsTarget shared.now.key target }
    requires short { version ≤ 2 ^ 63 }
    requires room { version ≢ 2 * shared.now.key.size.limit }
    ensures won { result ≡ version → Decides (origin_of shared.now.key) seat.old.me
        (Entry.Begin seat.old.me.0.lead target.place ∷ [])
        (IsUndisturbedAt (ask (origin_of shared.now.key) target.place target.value) seat.old.me.0.lead version)
        (hand (Claimed target.place version true) Nothing) seat.new.me }
    ensures lost { result ≢ version → Decides (origin_of shared.now.key) seat.old.me
        (Entry.Fail seat.old.me.0.lead target.place target.value Cause.Lost ∷ [])
        (HasLost (ask (origin_of shared.now.key) target.place target.value) seat.old.me.0.lead) (hand Rest Nothing) seat.new.me }
    ensures ready { MayStep shared.now seat.new }
    ensures home { seat.new.table_id ≡ seat.old.table_id }
{
    shared.compare_exchange::<ClaimEx<J>>(seat, target.tag, version, version + 1)
}

/// A store-exclusive of a thread that holds a reservation on the row fails: its class has had all of its writes.
#[inline]
fn fail_limited<J: Asks>(
    shared: &VersionShared,
    seat: &mut VersionSeat,
    target: Target,
    version: u64,
)
    requires asked { J.ask ≡ ask (origin_of shared.now.key) target.place target.value }
    requires ready { MayStep shared.now seat.old }
    requires reserved { seat.old.me.0.doing ≡ hand Rest (Row (row_of shared.now.key.size.granule target.place) version) }
    requires target { IsTarget shared.now.key target }
    requires limit { version ≡ 2 * shared.now.key.size.limit }
    ensures decides { Decides (origin_of shared.now.key) seat.old.me
        (Entry.Fail seat.old.me.0.lead target.place target.value Cause.Limit ∷ [])
        (IsDisturbed (ask (origin_of shared.now.key) target.place target.value) seat.old.me.0.lead)
        (hand Rest Nothing) seat.new.me }
    ensures home { seat.new.table_id ≡ seat.old.table_id }
{
    shared.load::<Limited<J>>(seat, 0);
}

/// A store-exclusive of a thread that holds a reservation on the row, in the whole; its stamp, or none where it fails.
#[inline]
pub fn store_ex_cell<J: Asks>(
    shared: &VersionShared,
    seat: &mut VersionSeat,
    target: Target,
    version: u64,
    limit: u64,
) -> Option<u64>
    requires asked { J.ask ≡ ask (origin_of shared.now.key) target.place target.value }
    requires ready { MayStep shared.now seat.old }
    requires reserved { seat.old.me.0.doing ≡ hand Rest (Row (row_of shared.now.key.size.granule target.place) version) }
    requires target { IsTarget shared.now.key target }
    requires short { version ≤ 2 ^ 63 }
    requires limit { limit ≡ shared.now.key.size.limit }
    ensures done { IfSome result
        (λ stamp. HasStoredEx (origin_of shared.now.key) target.place target.value stamp seat.old.me seat.new.me) }
    ensures failed { result ≡ None → HasFailed (origin_of shared.now.key) target.place target.value seat.old.me seat.new.me }
    ensures home { seat.new.table_id ≡ seat.old.table_id }
{
    if version == 2 * limit {
        fail_limited::<J>(shared, seat, target, version);
        return None;
    }
    let found = claim_ex::<J>(shared, seat, target, version);
    if found != version {
        return None;
    }
    write_held::<J>(shared, seat, target, version, true);
    Some(version / 2)
}

/// A store-exclusive of a thread that holds no reservation on the row: it fails.
#[inline]
pub fn fail_absent<J: Asks>(shared: &VersionShared, seat: &mut VersionSeat, target: Target)
    requires asked { J.ask ≡ ask (origin_of shared.now.key) target.place target.value }
    requires ready { MayStep shared.now seat.old }
    requires rest { seat.old.me.0.doing.doing ≡ Rest }
    requires other { (version : ℕ) → seat.old.me.0.doing.reserve ≢ Row (row_of shared.now.key.size.granule target.place) version }
    requires one { seat.old.me.0.doing.reserve ≢ Several }
    requires target { IsTarget shared.now.key target }
    ensures failed { HasFailed (origin_of shared.now.key) target.place target.value seat.old.me seat.new.me }
    ensures home { seat.new.table_id ≡ seat.old.table_id }
{
    shared.load::<Absent<J>>(seat, 0);
}

/// CLREX.
#[inline]
pub fn clear_reservation<J: Asks>(shared: &VersionShared, seat: &mut VersionSeat)
    requires asked { J.ask.origin ≡ origin_of shared.now.key }
    requires ready { MayStep shared.now seat.old }
    requires rest { seat.old.me.0.doing.doing ≡ Rest }
    ensures goes { Goes (origin_of shared.now.key) seat.old.me (entries_of_operation seat.old.me.0.lead clear)
        (hand Rest Nothing) seat.new.me }
    ensures home { seat.new.table_id ≡ seat.old.table_id }
{
    shared.load::<Clear<J>>(seat, 0);
}
