//! The steps of stamped loads.
ghost use Rattle.std.specs.Prelude.{◌≡◌, ◌≢◌, ◌*◌, ◌/◌, ◌%◌, ◌^◌, ◌≤◌, None, IfSome, [], ◌∷◌, false, true};
ghost use Rattle.llsc_base.specs.Memory.{row_of};
ghost use Rattle.row_bytes.specs.Cell.{value_in_cell};
ghost use Rattle.version_rule.specs.declared.hands.Doing.TheVariants.{Rest, First, Second};
ghost use Rattle.version_rule.specs.declared.hands.Reserve.TheVariants.{Row};
ghost use Rattle.version_rule.specs.Exact.{IsVersion};
ghost use Rattle.version_rule.specs.Hands.{hand};
ghost use Rattle.version_rule.specs.Kept.{origin_of};
ghost use Rattle.shared_memory.specs.Told.{Goes};
ghost use Rattle.shared_memory.specs.inner.Told.{ask};
ghost use Rattle.version_rule.specs.Told.{Decides};
ghost use Rattle.shared_memory.specs.inner.Targets.{IsTarget};
ghost use Rattle.version_memory.specs.inner.Passes.{MayStep};
ghost use Rattle.version_memory.specs.inner.Stored.{HasLoaded, HasLoadedEx};

use crate::exclusive::Linked;
use crossbeam_utils::Backoff;
use history::Entry;
use shared_memory::{Asks, Target};
use std::sync::Wait;
use version_rule::{FirstLook, SecondLook, ThirdLook, ThirdLookEx, VersionSeat, VersionShared};

/// What a stamped load has found.
#[derive(Clone, Copy)]
pub struct Found {
    /// The cell of its place.
    pub cell: u64,
    /// How many writes of the place's class came before.
    pub stamp: u64,
}

/// The tag of the class of a place, which the load goes on with where it is even.
#[inline]
fn find_version<J: Asks>(shared: &VersionShared, seat: &mut VersionSeat, target: Target) -> u64
    requires asked { J.ask ≡ ask (origin_of shared.now.key) target.place target.value }
    requires ready { MayStep shared.now seat.old }
    requires rest { seat.old.me.0.doing.doing ≡ Rest }
    requires target { IsTarget shared.now.key target }
    ensures found { result % 2 ≡ 0 → Goes (origin_of shared.now.key) seat.old.me []
        (hand (First target.place result) seat.old.me.0.doing.reserve) seat.new.me }
    ensures not_yet { result % 2 ≢ 0 → Goes (origin_of shared.now.key) seat.old.me [] seat.old.me.0.doing seat.new.me }
    ensures most { result ≤ 2 * shared.now.key.size.limit }
    ensures ready { MayStep shared.now seat.new }
    ensures home { seat.new.table_id ≡ seat.old.table_id }
{
    shared.load::<FirstLook<J>>(seat, target.tag)
}

/// The cell.
#[inline]
fn find_cell<J: Asks>(
    shared: &VersionShared,
    seat: &mut VersionSeat,
    target: Target,
    version: u64,
) -> u64
    requires asked { J.ask ≡ ask (origin_of shared.now.key) target.place target.value }
    requires ready { MayStep shared.now seat.old }
    requires target { IsTarget shared.now.key target }
    requires first { seat.old.me.0.doing.doing ≡ First target.place version }
    ensures goes { Goes (origin_of shared.now.key) seat.old.me []
        (hand (Second target.place version result) seat.old.me.0.doing.reserve) seat.new.me }
    ensures ready { MayStep shared.now seat.new }
    ensures home { seat.new.table_id ≡ seat.old.table_id }
{
    shared.load::<SecondLook<J>>(seat, target.word)
}

/// The tag again. Where it is the same still, the cell is a load's.
#[inline]
fn find_again<J: Asks>(
    shared: &VersionShared,
    seat: &mut VersionSeat,
    target: Target,
    version: u64,
    cell: u64,
) -> u64
    requires asked { J.ask ≡ ask (origin_of shared.now.key) target.place target.value }
    requires ready { MayStep shared.now seat.old }
    requires target { IsTarget shared.now.key target }
    requires second { seat.old.me.0.doing.doing ≡ Second target.place version cell }
    ensures same { result ≡ version → Decides (origin_of shared.now.key) seat.old.me
        (Entry.Read seat.old.me.0.lead target.place (value_in_cell cell target.place) false ∷ [])
        (IsVersion shared.now.key.size target.place version) (hand Rest seat.old.me.0.doing.reserve) seat.new.me }
    ensures other { result ≢ version → Goes (origin_of shared.now.key) seat.old.me []
        (hand Rest seat.old.me.0.doing.reserve) seat.new.me }
    ensures ready { MayStep shared.now seat.new }
    ensures home { seat.new.table_id ≡ seat.old.table_id }
{
    shared.load::<ThirdLook<J>>(seat, target.tag)
}

/// One try of a stamped load: none, where a write of the class was in flight, or came between.
#[inline]
fn try_load<J: Asks>(
    shared: &VersionShared,
    seat: &mut VersionSeat,
    target: Target,
) -> Option<Found>
    requires asked { J.ask ≡ ask (origin_of shared.now.key) target.place target.value }
    requires ready { MayStep shared.now seat.old }
    requires rest { seat.old.me.0.doing.doing ≡ Rest }
    requires target { IsTarget shared.now.key target }
    ensures loaded { IfSome result
        (λ found. HasLoaded (origin_of shared.now.key) target.place found.cell found.stamp seat.old.me seat.new.me) }
    ensures not_yet { result ≡ None → Goes (origin_of shared.now.key) seat.old.me [] seat.old.me.0.doing seat.new.me }
    ensures ready { MayStep shared.now seat.new }
    ensures home { seat.new.table_id ≡ seat.old.table_id }
{
    let version = find_version::<J>(shared, seat, target);
    if version % 2 != 0 {
        return None;
    }
    let cell = find_cell::<J>(shared, seat, target, version);
    let tag = find_again::<J>(shared, seat, target, version, cell);
    if tag != version {
        return None;
    }
    Some(Found {
        cell,
        stamp: version / 2,
    })
}

/// A stamped load, in the whole.
pub fn load_stamped_cell<R: Wait, J: Asks>(
    rt: &R,
    shared: &VersionShared,
    seat: &mut VersionSeat,
    target: Target,
) -> Found
    requires asked { J.ask ≡ ask (origin_of shared.now.key) target.place target.value }
    requires ready { MayStep shared.now seat.old }
    requires rest { seat.old.me.0.doing.doing ≡ Rest }
    requires target { IsTarget shared.now.key target }
    ensures loaded { HasLoaded (origin_of shared.now.key) target.place result.cell result.stamp seat.old.me seat.new.me }
    ensures home { seat.new.table_id ≡ seat.old.table_id }
{
    let backoff = Backoff::new();
    for _ in rt.forever() {
        match try_load::<J>(shared, seat, target) {
            Some(found) => return found,
            None => backoff.snooze(),
        }
    }
    unreachable!()
}

/// The tag again, of a load-exclusive. Where it is the same still, the cell is a load's, and the reservation begins.
#[inline]
fn find_again_ex<J: Asks>(
    shared: &VersionShared,
    seat: &mut VersionSeat,
    target: Target,
    version: u64,
    cell: u64,
) -> u64
    requires asked { J.ask ≡ ask (origin_of shared.now.key) target.place target.value }
    requires ready { MayStep shared.now seat.old }
    requires target { IsTarget shared.now.key target }
    requires second { seat.old.me.0.doing.doing ≡ Second target.place version cell }
    ensures same { result ≡ version → Decides (origin_of shared.now.key) seat.old.me (Entry.Watch seat.old.me.0.lead target.place
        ∷ Entry.Read seat.old.me.0.lead target.place (value_in_cell cell target.place) true ∷ [])
        (IsVersion shared.now.key.size target.place version)
        (hand Rest (Row (row_of shared.now.key.size.granule target.place) version)) seat.new.me }
    ensures other { result ≢ version → Goes (origin_of shared.now.key) seat.old.me []
        (hand Rest seat.old.me.0.doing.reserve) seat.new.me }
    ensures ready { MayStep shared.now seat.new }
    ensures home { seat.new.table_id ≡ seat.old.table_id }
{
    shared.load::<ThirdLookEx<J>>(seat, target.tag)
}

/// One try of a stamped load-exclusive: none, where a write of the class was in flight, or came between.
#[inline]
fn try_load_ex<J: Asks>(
    shared: &VersionShared,
    seat: &mut VersionSeat,
    target: Target,
) -> Option<Linked>
    requires asked { J.ask ≡ ask (origin_of shared.now.key) target.place target.value }
    requires ready { MayStep shared.now seat.old }
    requires rest { seat.old.me.0.doing.doing ≡ Rest }
    requires target { IsTarget shared.now.key target }
    ensures loaded { IfSome result
        (λ linked. HasLoadedEx (origin_of shared.now.key) target.place linked.cell linked.tag seat.old.me seat.new.me) }
    ensures short { IfSome result (λ linked. linked.tag ≤ 2 ^ 63) }
    ensures not_yet { result ≡ None → Goes (origin_of shared.now.key) seat.old.me [] seat.old.me.0.doing seat.new.me }
    ensures ready { MayStep shared.now seat.new }
    ensures home { seat.new.table_id ≡ seat.old.table_id }
{
    let version = find_version::<J>(shared, seat, target);
    if version % 2 != 0 {
        return None;
    }
    let cell = find_cell::<J>(shared, seat, target, version);
    let tag = find_again_ex::<J>(shared, seat, target, version, cell);
    if tag != version {
        return None;
    }
    Some(Linked { cell, tag: version })
}

/// A stamped load-exclusive, in the whole.
pub fn load_ex_stamped_cell<R: Wait, J: Asks>(
    rt: &R,
    shared: &VersionShared,
    seat: &mut VersionSeat,
    target: Target,
) -> Linked
    requires asked { J.ask ≡ ask (origin_of shared.now.key) target.place target.value }
    requires ready { MayStep shared.now seat.old }
    requires rest { seat.old.me.0.doing.doing ≡ Rest }
    requires target { IsTarget shared.now.key target }
    ensures loaded { HasLoadedEx (origin_of shared.now.key) target.place result.cell result.tag seat.old.me seat.new.me }
    ensures short { result.tag ≤ 2 ^ 63 }
    ensures home { seat.new.table_id ≡ seat.old.table_id }
{
    let backoff = Backoff::new();
    for _ in rt.forever() {
        match try_load_ex::<J>(shared, seat, target) {
            Some(linked) => return linked,
            None => backoff.snooze(),
        }
    }
    unreachable!()
}
