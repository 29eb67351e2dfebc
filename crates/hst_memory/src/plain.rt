//! The steps of loads and stores.
ghost use Rattle.std.specs.Prelude.{◌≡◌, ◌+◌, ◌^◌, ◌<◌, ◌≢◌, [], ◌∷◌, false};
ghost use Rattle.std.specs.Bool.{OnFalse, OnTrue};
ghost use Rattle.llsc_base.specs.Memory.{cell_of, class_of, row_of, size_bytes};
ghost use Rattle.row_bytes.specs.Cell.{value_in_cell};
ghost use Rattle.history.specs.Operation.{entries_of_operation, store};
ghost use Rattle.hst_memory.specs.declared.hands.Doing.TheVariants.{Rest, Inside, Begun, Written};
ghost use Rattle.hst_memory.specs.inner.Hands.{hand, reserve_after};
ghost use Rattle.shared_memory.specs.Layout.{cell_word, tag_word};
ghost use Rattle.hst_memory.specs.Kept.{origin_of};
ghost use Rattle.shared_memory.specs.inner.Targets.{IsPlace, IsTarget};
ghost use Rattle.hst_memory.specs.inner.Passes.{MayStep};
ghost use Rattle.shared_memory.specs.Told.{Goes};
ghost use Rattle.shared_memory.specs.inner.Told.{ask};

use crate::plans::{HstSeat, HstShared};
use crate::plays::{Change, Enter, Leave, Tag};
use crossbeam_utils::Backoff;
use history::Entry;
use llsc_base::Place;
use row_bytes::put;
use shared_memory::{Asks, Load, Look, Target};
use std::sync::Wait;

/// Loads the cell of a place, as a load of the place.
#[inline]
pub fn load_cell<J: Asks>(shared: &HstShared, seat: &mut HstSeat, place: Place, word: usize) -> u64
    requires asked { J.ask ≡ ask (origin_of shared.now.key) place 0 }
    requires ready { MayStep shared.now seat.old }
    requires rest { seat.old.me.0.doing.doing ≡ Rest }
    requires place { IsPlace shared.now.key place }
    requires word { word ≡ cell_word shared.now.key.size (cell_of place) }
    ensures goes { Goes (origin_of shared.now.key) seat.old.me
        (Entry.Read seat.old.me.0.lead place (value_in_cell result place) false ∷ []) seat.old.me.0.doing seat.new.me }
    ensures home { seat.new.table_id ≡ seat.old.table_id }
{
    shared.load::<Load<J>>(seat, word)
}

/// Loads a word, as no access.
#[inline]
pub fn look<J: Asks>(
    shared: &HstShared,
    seat: &mut HstSeat,
    place: Place,
    value: u64,
    word: usize,
) -> u64
    requires asked { J.ask ≡ ask (origin_of shared.now.key) place value }
    requires ready { MayStep shared.now seat.old }
    requires word { word < shared.now.table_id.words }
    ensures goes { Goes (origin_of shared.now.key) seat.old.me [] seat.old.me.0.doing seat.new.me }
    ensures ready { MayStep shared.now seat.new }
    ensures home { seat.new.table_id ≡ seat.old.table_id }
{
    shared.load::<Look<J>>(seat, word)
}

/// Whether a store came into the shared section.
#[inline]
fn try_enter<J: Asks>(
    shared: &HstShared,
    seat: &mut HstSeat,
    place: Place,
    value: u64,
    threads: u32,
) -> bool
    requires asked { J.ask ≡ ask (origin_of shared.now.key) place value }
    requires ready { MayStep shared.now seat.old }
    requires rest { seat.old.me.0.doing.doing ≡ Rest }
    requires threads { threads ≡ shared.now.key.size.threads }
    ensures entered { OnTrue result
        (Goes (origin_of shared.now.key) seat.old.me [] (hand (Inside place) seat.old.me.0.doing.reserve) seat.new.me) }
    ensures not_yet { OnFalse result (Goes (origin_of shared.now.key) seat.old.me [] seat.old.me.0.doing seat.new.me) }
    ensures ready { MayStep shared.now seat.new }
    ensures home { seat.new.table_id ≡ seat.old.table_id }
{
    let inside = look::<J>(shared, seat, place, value, 0);
    if inside >= u64::from(threads) {
        return false;
    }
    enter::<J>(shared, seat, place, value, inside)
}

/// Whether a store came in where so many were inside, fewer than there are threads.
#[inline]
fn enter<J: Asks>(
    shared: &HstShared,
    seat: &mut HstSeat,
    place: Place,
    value: u64,
    inside: u64,
) -> bool
    requires asked { J.ask ≡ ask (origin_of shared.now.key) place value }
    requires ready { MayStep shared.now seat.old }
    requires rest { seat.old.me.0.doing.doing ≡ Rest }
    requires few { inside < shared.now.key.size.threads }
    ensures entered { OnTrue result
        (Goes (origin_of shared.now.key) seat.old.me [] (hand (Inside place) seat.old.me.0.doing.reserve) seat.new.me) }
    ensures not_yet { OnFalse result (Goes (origin_of shared.now.key) seat.old.me [] seat.old.me.0.doing seat.new.me) }
    ensures ready { MayStep shared.now seat.new }
    ensures home { seat.new.table_id ≡ seat.old.table_id }
{
    let found = shared.compare_exchange::<Enter<J>>(seat, 0, inside, inside + 1);
    found == inside
}

/// A store begins: the name of its thread goes into the tag.
#[inline]
fn set_tag<J: Asks>(
    shared: &HstShared,
    seat: &mut HstSeat,
    place: Place,
    value: u64,
    tag: usize,
    name: u64,
)
    requires asked { J.ask ≡ ask (origin_of shared.now.key) place value }
    requires ready { MayStep shared.now seat.old }
    requires inside { seat.old.me.0.doing.doing ≡ Inside place }
    requires tag { tag ≡ tag_word (class_of shared.now.key.size.classes (row_of shared.now.key.size.granule place)) }
    requires name { name ≡ seat.old.me.0.lead + 1 }
    ensures goes { Goes (origin_of shared.now.key) seat.old.me (Entry.Begin seat.old.me.0.lead place ∷ [])
        (hand (Begun place) (reserve_after shared.now.key.size place seat.old.me.0.doing.reserve)) seat.new.me }
    ensures ready { MayStep shared.now seat.new }
    ensures home { seat.new.table_id ≡ seat.old.table_id }
{
    shared.store::<Tag<J>>(seat, tag, name);
}

/// The cell as a store that has begun found it; where that is what was expected, the store was written.
#[inline]
fn try_change<J: Asks>(
    shared: &HstShared,
    seat: &mut HstSeat,
    place: Place,
    value: u64,
    word: usize,
    cell: u64,
) -> u64
    requires asked { J.ask ≡ ask (origin_of shared.now.key) place value }
    requires ready { MayStep shared.now seat.old }
    requires begun { seat.old.me.0.doing.doing ≡ Begun place }
    requires place { IsPlace shared.now.key place }
    requires fits { value < 256 ^ size_bytes place.size }
    requires word { word ≡ cell_word shared.now.key.size (cell_of place) }
    ensures written { result ≡ cell
        → Goes (origin_of shared.now.key) seat.old.me (Entry.Write seat.old.me.0.lead place value false ∷ [])
        (hand (Written place) seat.old.me.0.doing.reserve) seat.new.me }
    ensures not_yet { result ≢ cell → Goes (origin_of shared.now.key) seat.old.me [] seat.old.me.0.doing seat.new.me }
    ensures ready { MayStep shared.now seat.new }
    ensures home { seat.new.table_id ≡ seat.old.table_id }
{
    shared.compare_exchange::<Change<J>>(seat, word, cell, put(cell, place, value))
}

/// A store leaves the section.
#[inline]
fn leave<J: Asks>(shared: &HstShared, seat: &mut HstSeat, place: Place, value: u64)
    requires asked { J.ask ≡ ask (origin_of shared.now.key) place value }
    requires ready { MayStep shared.now seat.old }
    requires written { seat.old.me.0.doing.doing ≡ Written place }
    ensures goes { Goes (origin_of shared.now.key) seat.old.me (Entry.End seat.old.me.0.lead place ∷ [])
        (hand Rest seat.old.me.0.doing.reserve) seat.new.me }
    ensures home { seat.new.table_id ≡ seat.old.table_id }
{
    shared.fetch_sub::<Leave<J>>(seat, 0, 1);
}

/// A store comes into the shared section, once it may.
fn enter_shared<R: Wait, J: Asks>(
    rt: &R,
    shared: &HstShared,
    seat: &mut HstSeat,
    place: Place,
    value: u64,
    threads: u32,
)
    requires asked { J.ask ≡ ask (origin_of shared.now.key) place value }
    requires ready { MayStep shared.now seat.old }
    requires rest { seat.old.me.0.doing.doing ≡ Rest }
    requires threads { threads ≡ shared.now.key.size.threads }
    ensures goes { Goes (origin_of shared.now.key) seat.old.me [] (hand (Inside place) seat.old.me.0.doing.reserve) seat.new.me }
    ensures ready { MayStep shared.now seat.new }
    ensures home { seat.new.table_id ≡ seat.old.table_id }
{
    let backoff = Backoff::new();
    for _ in rt.forever() {
        if try_enter::<J>(shared, seat, place, value, threads) {
            return;
        }
        backoff.snooze();
    }
    unreachable!()
}

/// A store changes its cell, from whatever others make of it.
fn change<R: Wait, J: Asks>(
    rt: &R,
    shared: &HstShared,
    seat: &mut HstSeat,
    place: Place,
    value: u64,
    word: usize,
)
    requires asked { J.ask ≡ ask (origin_of shared.now.key) place value }
    requires ready { MayStep shared.now seat.old }
    requires begun { seat.old.me.0.doing.doing ≡ Begun place }
    requires place { IsPlace shared.now.key place }
    requires fits { value < 256 ^ size_bytes place.size }
    requires word { word ≡ cell_word shared.now.key.size (cell_of place) }
    ensures goes { Goes (origin_of shared.now.key) seat.old.me (Entry.Write seat.old.me.0.lead place value false ∷ [])
        (hand (Written place) seat.old.me.0.doing.reserve) seat.new.me }
    ensures ready { MayStep shared.now seat.new }
    ensures home { seat.new.table_id ≡ seat.old.table_id }
{
    let backoff = Backoff::new();
    for _ in rt.forever() {
        let cell = look::<J>(shared, seat, place, value, word);
        let found = try_change::<J>(shared, seat, place, value, word, cell);
        if found == cell {
            return;
        }
        backoff.spin();
    }
    unreachable!()
}

/// Stores to a place, in the whole: it comes in, begins, changes the cell, and leaves.
pub fn store_cell<R: Wait, J: Asks>(
    rt: &R,
    shared: &HstShared,
    seat: &mut HstSeat,
    target: Target,
    threads: u32,
    name: u64,
)
    requires asked { J.ask ≡ ask (origin_of shared.now.key) target.place target.value }
    requires ready { MayStep shared.now seat.old }
    requires rest { seat.old.me.0.doing.doing ≡ Rest }
    requires target { IsTarget shared.now.key target }
    requires threads { threads ≡ shared.now.key.size.threads }
    requires name { name ≡ seat.old.me.0.lead + 1 }
    ensures goes { Goes (origin_of shared.now.key) seat.old.me
        (entries_of_operation seat.old.me.0.lead (store target.place target.value false))
        (hand Rest (reserve_after shared.now.key.size target.place seat.old.me.0.doing.reserve)) seat.new.me }
    ensures home { seat.new.table_id ≡ seat.old.table_id }
{
    let (place, value) = (target.place, target.value);
    enter_shared::<R, J>(rt, shared, seat, place, value, threads);
    set_tag::<J>(shared, seat, place, value, target.tag, name);
    change::<R, J>(rt, shared, seat, place, value, target.word);
    leave::<J>(shared, seat, place, value);
}
