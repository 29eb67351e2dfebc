//! The steps of loads and stores.
ghost use Rattle.std.specs.Prelude.{◌≡◌, ◌≢◌, ◌*◌, ◌/◌, ◌%◌, ◌<◌, ℕ, None, IfSome, [], ◌∷◌, false};
ghost use Rattle.std.specs.Bool.{OnFalse, OnTrue};
ghost use Rattle.llsc_base.specs.Memory.{cell_of, row_of};
ghost use Rattle.row_bytes.specs.Cell.{value_in_cell};
ghost use Rattle.history.specs.Class.{edges_of};
ghost use Rattle.version_rule.specs.declared.hands.Doing.TheVariants.{Rest, Claimed, Holding, Written};
ghost use Rattle.version_rule.specs.Exact.{IsAtLimit, IsVersion};
ghost use Rattle.version_rule.specs.Hands.{hand, reserve_after};
ghost use Rattle.shared_memory.specs.Layout.{cell_word};
ghost use Rattle.version_rule.specs.Kept.{origin_of};
ghost use Rattle.shared_memory.specs.Told.{Goes};
ghost use Rattle.shared_memory.specs.inner.Told.{ask};
ghost use Rattle.version_rule.specs.Told.{Decides, HasFoundTag};
ghost use Rattle.shared_memory.specs.inner.Targets.{IsPlace, IsTarget};
ghost use Rattle.version_memory.specs.Exact.{IsContended};
ghost use Rattle.version_memory.specs.inner.Passes.{MayStep};
ghost use Rattle.version_memory.specs.Stands.{IsStamped};
ghost use Rattle.version_memory.specs.inner.Stored.{HasStored};

use crossbeam_utils::Backoff;
use history::Entry;
use llsc_base::Place;
use row_bytes::put;
use shared_memory::{Asks, Load, Target};
use std::sync::Wait;
use version_rule::{Change, Claim, LookAtTag, Release, Take, VersionSeat, VersionShared};

/// Loads the cell of a place, as a load of the place.
#[inline]
pub fn load_cell<J: Asks>(
    shared: &VersionShared,
    seat: &mut VersionSeat,
    place: Place,
    word: usize,
) -> u64
    requires asked { J.ask ≡ ask (origin_of shared.now.key) place 0 }
    requires ready { MayStep shared.now seat.old }
    requires rest { seat.old.me.0.doing.doing ≡ Rest }
    requires place { IsPlace shared.now.key place }
    requires word { word ≡ cell_word shared.now.key.size (cell_of place) }
    ensures goes { Goes (origin_of shared.now.key) seat.old.me
        (Entry.Read seat.old.me.0.lead place (value_in_cell result place) false ∷ []) seat.old.me.0.doing seat.new.me }
    ensures home { seat.new.table_id ≡ seat.old.table_id }
{
    shared.load::<Load<J>>(seat, word)
}

/// The tag of the class of a place, which is even where no write of the class is in flight.
#[inline]
pub fn look_at_tag<J: Asks>(shared: &VersionShared, seat: &mut VersionSeat, target: Target) -> u64
    requires asked { J.ask ≡ ask (origin_of shared.now.key) target.place target.value }
    requires ready { MayStep shared.now seat.old }
    requires target { IsTarget shared.now.key target }
    ensures found { HasFoundTag (ask (origin_of shared.now.key) target.place target.value) seat.old.me result seat.new.me }
    ensures ready { MayStep shared.now seat.new }
    ensures home { seat.new.table_id ≡ seat.old.table_id }
{
    shared.load::<LookAtTag<J>>(seat, target.tag)
}

/// Whether a store claimed its class: where the tag was still this version.
#[inline]
fn claim<J: Asks>(
    shared: &VersionShared,
    seat: &mut VersionSeat,
    target: Target,
    version: u64,
) -> bool
    requires asked { J.ask ≡ ask (origin_of shared.now.key) target.place target.value }
    requires ready { MayStep shared.now seat.old }
    requires rest { seat.old.me.0.doing.doing ≡ Rest }
    requires target { IsTarget shared.now.key target }
    requires even { version % 2 ≡ 0 }
    requires room { version < 2 * shared.now.key.size.limit }
    ensures claimed { OnTrue result
        (Decides (origin_of shared.now.key) seat.old.me (Entry.Begin seat.old.me.0.lead target.place ∷ [])
        (IsVersion shared.now.key.size target.place version)
        (hand (Claimed target.place version false)
        (reserve_after shared.now.key.size target.place seat.old.me.0.doing.reserve)) seat.new.me) }
    ensures not_yet { OnFalse result (Goes (origin_of shared.now.key) seat.old.me [] seat.old.me.0.doing seat.new.me) }
    ensures moved { OnFalse result
        (edges_of shared.now.key.size (row_of shared.now.key.size.granule target.place) seat.new.me.0.seen ≢ version) }
    ensures ready { MayStep shared.now seat.new }
    ensures home { seat.new.table_id ≡ seat.old.table_id }
{
    let found = shared.compare_exchange::<Claim<J>>(seat, target.tag, version, version + 1);
    found == version
}

/// A write that holds its class loads the cell.
#[inline]
fn take_cell<J: Asks>(
    shared: &VersionShared,
    seat: &mut VersionSeat,
    target: Target,
    version: u64,
    ex: bool,
) -> u64
    requires asked { J.ask ≡ ask (origin_of shared.now.key) target.place target.value }
    requires ready { MayStep shared.now seat.old }
    requires target { IsTarget shared.now.key target }
    requires claimed { seat.old.me.0.doing.doing ≡ Claimed target.place version ex }
    ensures goes { Goes (origin_of shared.now.key) seat.old.me []
        (hand (Holding target.place version ex result) seat.old.me.0.doing.reserve) seat.new.me }
    ensures ready { MayStep shared.now seat.new }
    ensures home { seat.new.table_id ≡ seat.old.table_id }
{
    shared.load::<Take<J>>(seat, target.word)
}

/// It stores the cell, changed.
#[inline]
fn change_cell<J: Asks>(
    shared: &VersionShared,
    seat: &mut VersionSeat,
    target: Target,
    version: u64,
    ex: bool,
    cell: u64,
)
    requires asked { J.ask ≡ ask (origin_of shared.now.key) target.place target.value }
    requires ready { MayStep shared.now seat.old }
    requires target { IsTarget shared.now.key target }
    requires holding { seat.old.me.0.doing.doing ≡ Holding target.place version ex cell }
    ensures decides { Decides (origin_of shared.now.key) seat.old.me
        (Entry.Write seat.old.me.0.lead target.place target.value ex ∷ []) (IsVersion shared.now.key.size target.place version)
        (hand (Written target.place version) seat.old.me.0.doing.reserve) seat.new.me }
    ensures ready { MayStep shared.now seat.new }
    ensures home { seat.new.table_id ≡ seat.old.table_id }
{
    shared.store::<Change<J>>(seat, target.word, put(cell, target.place, target.value));
}

/// It gives the class back, at the next version.
#[inline]
fn release<J: Asks>(shared: &VersionShared, seat: &mut VersionSeat, target: Target, version: u64)
    requires asked { J.ask ≡ ask (origin_of shared.now.key) target.place target.value }
    requires ready { MayStep shared.now seat.old }
    requires target { IsTarget shared.now.key target }
    requires room { version < 2 * shared.now.key.size.limit }
    requires written { seat.old.me.0.doing.doing ≡ Written target.place version }
    ensures goes { Goes (origin_of shared.now.key) seat.old.me (Entry.End seat.old.me.0.lead target.place ∷ [])
        (hand Rest seat.old.me.0.doing.reserve) seat.new.me }
    ensures home { seat.new.table_id ≡ seat.old.table_id }
{
    shared.store::<Release<J>>(seat, target.tag, version + 2);
}

/// A write that has begun and holds its class, to its end. Its stamp is half its version.
#[inline]
pub fn write_held<J: Asks>(
    shared: &VersionShared,
    seat: &mut VersionSeat,
    target: Target,
    version: u64,
    ex: bool,
)
    requires asked { J.ask ≡ ask (origin_of shared.now.key) target.place target.value }
    requires ready { MayStep shared.now seat.old }
    requires target { IsTarget shared.now.key target }
    requires room { version < 2 * shared.now.key.size.limit }
    requires claimed { seat.old.me.0.doing.doing ≡ Claimed target.place version ex }
    ensures goes { Goes (origin_of shared.now.key) seat.old.me (Entry.Write seat.old.me.0.lead target.place target.value ex
        ∷ Entry.End seat.old.me.0.lead target.place ∷ []) (hand Rest seat.old.me.0.doing.reserve) seat.new.me }
    ensures stamped { IsStamped shared.now.key.size target.place (version / 2)
        (Entry.Write seat.old.me.0.lead target.place target.value ex) seat.old.me.0.seen seat.new.me.0.seen }
    ensures home { seat.new.table_id ≡ seat.old.table_id }
{
    let cell = take_cell::<J>(shared, seat, target, version, ex);
    change_cell::<J>(shared, seat, target, version, ex, cell);
    release::<J>(shared, seat, target, version);
}

/// What came of a try to store.
pub enum Tried {
    /// A write of the class was in flight, or came first.
    Waits,
    /// The class has had all of its writes.
    Spent,
    /// It is done, with this stamp.
    Done(u64),
}

/// One try to store.
#[inline]
pub fn try_store<J: Asks>(
    shared: &VersionShared,
    seat: &mut VersionSeat,
    target: Target,
    limit: u64,
) -> Tried
    requires asked { J.ask ≡ ask (origin_of shared.now.key) target.place target.value }
    requires ready { MayStep shared.now seat.old }
    requires rest { seat.old.me.0.doing.doing ≡ Rest }
    requires target { IsTarget shared.now.key target }
    requires limit { limit ≡ shared.now.key.size.limit }
    ensures waits { result ≡ Tried.Waits → Goes (origin_of shared.now.key) seat.old.me [] seat.old.me.0.doing seat.new.me }
    ensures contended { result ≡ Tried.Waits → IsContended shared.now.key.size target.place seat.old.me.0.seen seat.new.me.0.seen }
    ensures spent { result ≡ Tried.Spent → Goes (origin_of shared.now.key) seat.old.me [] seat.old.me.0.doing seat.new.me
        × IsAtLimit shared.now.key.size target.place seat.new.me.0.seen }
    ensures done { (stamp : ℕ) → result ≡ Tried.Done stamp
        → HasStored (origin_of shared.now.key) target.place target.value stamp seat.old.me seat.new.me }
    ensures ready { MayStep shared.now seat.new }
    ensures home { seat.new.table_id ≡ seat.old.table_id }
{
    let tag = look_at_tag::<J>(shared, seat, target);
    if tag % 2 != 0 {
        return Tried::Waits;
    }
    if tag / 2 >= limit {
        return Tried::Spent;
    }
    if !claim::<J>(shared, seat, target, tag) {
        return Tried::Waits;
    }
    write_held::<J>(shared, seat, target, tag, false);
    Tried::Done(tag / 2)
}

/// Stores as [`store_cell`] does, once a try has had to wait.
#[cold]
#[inline(never)]
fn store_later<R: Wait, J: Asks>(
    rt: &R,
    shared: &VersionShared,
    seat: &mut VersionSeat,
    target: Target,
    limit: u64,
) -> Option<u64>
    requires asked { J.ask ≡ ask (origin_of shared.now.key) target.place target.value }
    requires ready { MayStep shared.now seat.old }
    requires rest { seat.old.me.0.doing.doing ≡ Rest }
    requires target { IsTarget shared.now.key target }
    requires limit { limit ≡ shared.now.key.size.limit }
    ensures spent { result ≡ None → Goes (origin_of shared.now.key) seat.old.me [] seat.old.me.0.doing seat.new.me
        × IsAtLimit shared.now.key.size target.place seat.new.me.0.seen }
    ensures done { IfSome result
        (λ stamp. HasStored (origin_of shared.now.key) target.place target.value stamp seat.old.me seat.new.me) }
    ensures home { seat.new.table_id ≡ seat.old.table_id }
{
    let backoff = Backoff::new();
    for _ in rt.forever() {
        match try_store::<J>(shared, seat, target, limit) {
            Tried::Done(stamp) => return Some(stamp),
            Tried::Spent => return None,
            Tried::Waits => backoff.snooze(),
        }
    }
    unreachable!()
}

/// Stores to a place, in the whole, and gives the stamp; or none, where the class has had all of its writes.
#[inline(always)]
pub fn store_cell<R: Wait, J: Asks>(
    rt: &R,
    shared: &VersionShared,
    seat: &mut VersionSeat,
    target: Target,
    limit: u64,
) -> Option<u64>
    requires asked { J.ask ≡ ask (origin_of shared.now.key) target.place target.value }
    requires ready { MayStep shared.now seat.old }
    requires rest { seat.old.me.0.doing.doing ≡ Rest }
    requires target { IsTarget shared.now.key target }
    requires limit { limit ≡ shared.now.key.size.limit }
    ensures spent { result ≡ None → Goes (origin_of shared.now.key) seat.old.me [] seat.old.me.0.doing seat.new.me
        × IsAtLimit shared.now.key.size target.place seat.new.me.0.seen }
    ensures done { IfSome result
        (λ stamp. HasStored (origin_of shared.now.key) target.place target.value stamp seat.old.me seat.new.me) }
    ensures home { seat.new.table_id ≡ seat.old.table_id }
{
    match try_store::<J>(shared, seat, target, limit) {
        Tried::Done(stamp) => Some(stamp),
        Tried::Spent => None,
        Tried::Waits => store_later::<R, J>(rt, shared, seat, target, limit),
    }
}
