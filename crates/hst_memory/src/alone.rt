//! The steps of exclusive accesses.
ghost use Rattle.std.specs.Prelude.{◌≡◌, ◌≢◌, ◌+◌, ◌<◌, [], ◌∷◌, false, true};
ghost use Rattle.std.specs.Bool.{OnFalse, OnTrue};
ghost use Rattle.llsc_base.specs.Memory.{cell_of, class_of, row_of};
ghost use Rattle.row_bytes.specs.Cell.{value_in_cell};
ghost use Rattle.history.specs.Operation.{clear, entries_of_operation, fail, load_watched, store};
ghost use Rattle.history.specs.declared.entry.Cause.{Cause};
ghost use Rattle.hst_memory.specs.declared.hands.Doing.TheVariants.{Rest, Alone, Watching, Done, AloneBegun, AloneWritten};
ghost use Rattle.hst_memory.specs.declared.hands.Reserve.TheVariants.{Nothing, Row, Several};
ghost use Rattle.hst_memory.specs.Exact.{IsExact};
ghost use Rattle.hst_memory.specs.inner.Hands.{hand};
ghost use Rattle.shared_memory.specs.Layout.{cell_word, tag_word};
ghost use Rattle.hst_memory.specs.Kept.{origin_of};
ghost use Rattle.shared_memory.specs.inner.Targets.{IsPlace, IsTarget};
ghost use Rattle.hst_memory.specs.inner.Passes.{MayStep};
ghost use Rattle.shared_memory.specs.Told.{Goes};
ghost use Rattle.shared_memory.specs.inner.Told.{ask};
ghost use Rattle.hst_memory.specs.inner.Told.{HasLost, HasWon};

use crate::plain::look;
use crate::plans::{HstSeat, HstShared};
use crate::plays::{
    Absent, ChangeAlone, Clear, EnterAlone, LeaveAlone, LeaveWritten, ReadEx, Test, Watch,
};
use crossbeam_utils::Backoff;
use history::Entry;
use llsc_base::Place;
use row_bytes::put;
use shared_memory::{Asks, Target};
use std::sync::Wait;

/// The section's word while one thread is inside alone.
const ALONE: u64 = 1 << 32;

/// Whether a thread came in alone: where nobody was inside.
#[inline]
fn try_enter_alone<J: Asks>(
    shared: &HstShared,
    seat: &mut HstSeat,
    place: Place,
    value: u64,
) -> bool
    requires asked { J.ask ≡ ask (origin_of shared.now.key) place value }
    requires ready { MayStep shared.now seat.old }
    requires rest { seat.old.me.0.doing.doing ≡ Rest }
    ensures entered { OnTrue result
        (Goes (origin_of shared.now.key) seat.old.me [] (hand Alone seat.old.me.0.doing.reserve) seat.new.me) }
    ensures not_yet { OnFalse result (Goes (origin_of shared.now.key) seat.old.me [] seat.old.me.0.doing seat.new.me) }
    ensures ready { MayStep shared.now seat.new }
    ensures home { seat.new.table_id ≡ seat.old.table_id }
{
    let found = shared.compare_exchange::<EnterAlone<J>>(seat, 0, 0, ALONE);
    found == 0
}

/// A thread comes in alone, once it may.
fn enter_alone<R: Wait, J: Asks>(
    rt: &R,
    shared: &HstShared,
    seat: &mut HstSeat,
    place: Place,
    value: u64,
)
    requires asked { J.ask ≡ ask (origin_of shared.now.key) place value }
    requires ready { MayStep shared.now seat.old }
    requires rest { seat.old.me.0.doing.doing ≡ Rest }
    ensures goes { Goes (origin_of shared.now.key) seat.old.me [] (hand Alone seat.old.me.0.doing.reserve) seat.new.me }
    ensures ready { MayStep shared.now seat.new }
    ensures home { seat.new.table_id ≡ seat.old.table_id }
{
    let backoff = Backoff::new();
    for _ in rt.forever() {
        if try_enter_alone::<J>(shared, seat, place, value) {
            return;
        }
        backoff.snooze();
    }
    unreachable!()
}

/// A load-exclusive begins: the name of its thread goes into the tag.
#[inline]
fn watch<J: Asks>(
    shared: &HstShared,
    seat: &mut HstSeat,
    place: Place,
    value: u64,
    tag: usize,
    name: u64,
)
    requires asked { J.ask ≡ ask (origin_of shared.now.key) place value }
    requires ready { MayStep shared.now seat.old }
    requires alone { seat.old.me.0.doing.doing ≡ Alone }
    requires tag { tag ≡ tag_word (class_of shared.now.key.size.classes (row_of shared.now.key.size.granule place)) }
    requires name { name ≡ seat.old.me.0.lead + 1 }
    ensures goes { Goes (origin_of shared.now.key) seat.old.me (Entry.Watch seat.old.me.0.lead place ∷ [])
        (hand (Watching place) (Row (row_of shared.now.key.size.granule place))) seat.new.me }
    ensures ready { MayStep shared.now seat.new }
    ensures home { seat.new.table_id ≡ seat.old.table_id }
{
    shared.store::<Watch<J>>(seat, tag, name);
}

/// It loads the cell.
#[inline]
fn read_ex<J: Asks>(
    shared: &HstShared,
    seat: &mut HstSeat,
    place: Place,
    value: u64,
    word: usize,
) -> u64
    requires asked { J.ask ≡ ask (origin_of shared.now.key) place value }
    requires ready { MayStep shared.now seat.old }
    requires watching { seat.old.me.0.doing.doing ≡ Watching place }
    requires place { IsPlace shared.now.key place }
    requires word { word ≡ cell_word shared.now.key.size (cell_of place) }
    ensures goes { Goes (origin_of shared.now.key) seat.old.me
        (Entry.Read seat.old.me.0.lead place (value_in_cell result place) true ∷ [])
        (hand Done seat.old.me.0.doing.reserve) seat.new.me }
    ensures ready { MayStep shared.now seat.new }
    ensures home { seat.new.table_id ≡ seat.old.table_id }
{
    shared.load::<ReadEx<J>>(seat, word)
}

/// A thread that was alone leaves, and nothing comes of it.
#[inline]
fn leave_alone<J: Asks>(shared: &HstShared, seat: &mut HstSeat, place: Place, value: u64)
    requires asked { J.ask ≡ ask (origin_of shared.now.key) place value }
    requires ready { MayStep shared.now seat.old }
    requires done { seat.old.me.0.doing.doing ≡ Done }
    ensures goes { Goes (origin_of shared.now.key) seat.old.me [] (hand Rest seat.old.me.0.doing.reserve) seat.new.me }
    ensures home { seat.new.table_id ≡ seat.old.table_id }
{
    shared.store::<LeaveAlone<J>>(seat, 0, 0);
}

/// A load-exclusive in the whole: it comes in alone, puts its name into the tag, loads the cell, and leaves.
pub fn load_ex_cell<R: Wait, J: Asks>(
    rt: &R,
    shared: &HstShared,
    seat: &mut HstSeat,
    target: Target,
    name: u64,
) -> u64
    requires asked { J.ask ≡ ask (origin_of shared.now.key) target.place target.value }
    requires ready { MayStep shared.now seat.old }
    requires rest { seat.old.me.0.doing.doing ≡ Rest }
    requires target { IsTarget shared.now.key target }
    requires name { name ≡ seat.old.me.0.lead + 1 }
    ensures goes { Goes (origin_of shared.now.key) seat.old.me
        (entries_of_operation seat.old.me.0.lead (load_watched target.place (value_in_cell result target.place)))
        (hand Rest (Row (row_of shared.now.key.size.granule target.place))) seat.new.me }
    ensures home { seat.new.table_id ≡ seat.old.table_id }
{
    let (place, value) = (target.place, target.value);
    enter_alone::<R, J>(rt, shared, seat, place, value);
    watch::<J>(shared, seat, place, value, target.tag, name);
    let cell = read_ex::<J>(shared, seat, place, value, target.word);
    leave_alone::<J>(shared, seat, place, value);
    cell
}

/// A store-exclusive is decided: it succeeds where the tag has the name of its thread.
#[inline]
fn test_tag<J: Asks>(shared: &HstShared, seat: &mut HstSeat, target: Target, name: u64) -> u64
    requires asked { J.ask ≡ ask (origin_of shared.now.key) target.place target.value }
    requires ready { MayStep shared.now seat.old }
    requires alone { seat.old.me.0.doing ≡ hand Alone (Row (row_of shared.now.key.size.granule target.place)) }
    requires target { IsTarget shared.now.key target }
    requires name { name ≡ seat.old.me.0.lead + 1 }
    ensures won { result ≡ name → HasWon (origin_of shared.now.key) target.place seat.old.me seat.new.me }
    ensures lost { result ≢ name → HasLost (origin_of shared.now.key) target.place target.value seat.old.me seat.new.me }
    ensures ready { MayStep shared.now seat.new }
    ensures home { seat.new.table_id ≡ seat.old.table_id }
{
    shared.load::<Test<J>>(seat, target.tag)
}

/// The cell as a store-exclusive that has begun found it; where that is what was expected, the cell was changed.
#[inline]
fn try_change_alone<J: Asks>(
    shared: &HstShared,
    seat: &mut HstSeat,
    target: Target,
    cell: u64,
) -> u64
    requires asked { J.ask ≡ ask (origin_of shared.now.key) target.place target.value }
    requires ready { MayStep shared.now seat.old }
    requires begun { seat.old.me.0.doing ≡ hand (AloneBegun target.place) Nothing }
    requires target { IsTarget shared.now.key target }
    ensures written { result ≡ cell
        → Goes (origin_of shared.now.key) seat.old.me (Entry.Write seat.old.me.0.lead target.place target.value true ∷ [])
        (hand (AloneWritten target.place) Nothing) seat.new.me }
    ensures not_yet { result ≢ cell → Goes (origin_of shared.now.key) seat.old.me [] seat.old.me.0.doing seat.new.me }
    ensures ready { MayStep shared.now seat.new }
    ensures home { seat.new.table_id ≡ seat.old.table_id }
{
    let new = put(cell, target.place, target.value);
    shared.compare_exchange::<ChangeAlone<J>>(seat, target.word, cell, new)
}

/// Loads the cell of a place, as no access.
#[inline]
fn look_at_cell<J: Asks>(shared: &HstShared, seat: &mut HstSeat, target: Target) -> u64
    requires asked { J.ask ≡ ask (origin_of shared.now.key) target.place target.value }
    requires ready { MayStep shared.now seat.old }
    requires target { IsTarget shared.now.key target }
    ensures goes { Goes (origin_of shared.now.key) seat.old.me [] seat.old.me.0.doing seat.new.me }
    ensures ready { MayStep shared.now seat.new }
    ensures home { seat.new.table_id ≡ seat.old.table_id }
{
    look::<J>(shared, seat, target.place, target.value, target.word)
}

/// A store-exclusive changes its cell.
fn change_alone<R: Wait, J: Asks>(rt: &R, shared: &HstShared, seat: &mut HstSeat, target: Target)
    requires asked { J.ask ≡ ask (origin_of shared.now.key) target.place target.value }
    requires ready { MayStep shared.now seat.old }
    requires begun { seat.old.me.0.doing ≡ hand (AloneBegun target.place) Nothing }
    requires target { IsTarget shared.now.key target }
    ensures goes { Goes (origin_of shared.now.key) seat.old.me
        (Entry.Write seat.old.me.0.lead target.place target.value true ∷ [])
        (hand (AloneWritten target.place) Nothing) seat.new.me }
    ensures ready { MayStep shared.now seat.new }
    ensures home { seat.new.table_id ≡ seat.old.table_id }
{
    let backoff = Backoff::new();
    for _ in rt.forever() {
        let cell = look_at_cell::<J>(shared, seat, target);
        let found = try_change_alone::<J>(shared, seat, target, cell);
        if found == cell {
            return;
        }
        backoff.spin();
    }
    unreachable!()
}

/// A store-exclusive that is written leaves.
#[inline]
fn leave_written<J: Asks>(shared: &HstShared, seat: &mut HstSeat, place: Place, value: u64)
    requires asked { J.ask ≡ ask (origin_of shared.now.key) place value }
    requires ready { MayStep shared.now seat.old }
    requires written { seat.old.me.0.doing ≡ hand (AloneWritten place) Nothing }
    ensures goes { Goes (origin_of shared.now.key) seat.old.me (Entry.End seat.old.me.0.lead place ∷ [])
        (hand Rest Nothing) seat.new.me }
    ensures home { seat.new.table_id ≡ seat.old.table_id }
{
    shared.store::<LeaveWritten<J>>(seat, 0, 0);
}

/// A store-exclusive of a thread that holds a reservation on the row, in the whole, and whether it succeeded: it comes in
/// alone, and where the tag has its name still it changes the cell; then it leaves.
pub fn store_ex_cell<R: Wait, J: Asks>(
    rt: &R,
    shared: &HstShared,
    seat: &mut HstSeat,
    target: Target,
    name: u64,
) -> bool
    requires asked { J.ask ≡ ask (origin_of shared.now.key) target.place target.value }
    requires ready { MayStep shared.now seat.old }
    requires reserved { seat.old.me.0.doing ≡ hand Rest (Row (row_of shared.now.key.size.granule target.place)) }
    requires target { IsTarget shared.now.key target }
    requires name { name ≡ seat.old.me.0.lead + 1 }
    ensures done { OnTrue result
        (Goes (origin_of shared.now.key) seat.old.me
        (entries_of_operation seat.old.me.0.lead (store target.place target.value true)) (hand Rest Nothing) seat.new.me) }
    ensures failed { OnFalse result
        (Goes (origin_of shared.now.key) seat.old.me
        (entries_of_operation seat.old.me.0.lead (fail target.place target.value Cause.Lost)) (hand Rest Nothing) seat.new.me) }
    ensures exact { IsExact shared.now.key.size seat.old.me.0.lead target.place target.value result
        seat.old.me.0.seen seat.new.me.0.seen }
    ensures home { seat.new.table_id ≡ seat.old.table_id }
{
    let (place, value) = (target.place, target.value);
    enter_alone::<R, J>(rt, shared, seat, place, value);
    let tag = test_tag::<J>(shared, seat, target, name);
    if tag != name {
        leave_alone::<J>(shared, seat, place, value);
        return false;
    }
    change_alone::<R, J>(rt, shared, seat, target);
    leave_written::<J>(shared, seat, place, value);
    true
}

/// A store-exclusive of a thread that holds no reservation on the row: it fails.
pub fn fail_absent<J: Asks>(shared: &HstShared, seat: &mut HstSeat, target: Target)
    requires asked { J.ask ≡ ask (origin_of shared.now.key) target.place target.value }
    requires ready { MayStep shared.now seat.old }
    requires rest { seat.old.me.0.doing.doing ≡ Rest }
    requires other { seat.old.me.0.doing.reserve ≢ Row (row_of shared.now.key.size.granule target.place) }
    requires one { seat.old.me.0.doing.reserve ≢ Several }
    requires target { IsTarget shared.now.key target }
    ensures goes { Goes (origin_of shared.now.key) seat.old.me
        (entries_of_operation seat.old.me.0.lead (fail target.place target.value Cause.Absent)) (hand Rest Nothing) seat.new.me }
    ensures exact { IsExact shared.now.key.size seat.old.me.0.lead target.place target.value false
        seat.old.me.0.seen seat.new.me.0.seen }
    ensures home { seat.new.table_id ≡ seat.old.table_id }
{
    shared.load::<Absent<J>>(seat, 0);
}

/// CLREX.
pub fn clear_reservation<J: Asks>(shared: &HstShared, seat: &mut HstSeat)
    requires asked { J.ask.origin ≡ origin_of shared.now.key }
    requires ready { MayStep shared.now seat.old }
    requires rest { seat.old.me.0.doing.doing ≡ Rest }
    ensures goes { Goes (origin_of shared.now.key) seat.old.me (entries_of_operation seat.old.me.0.lead clear)
        (hand Rest Nothing) seat.new.me }
    ensures home { seat.new.table_id ≡ seat.old.table_id }
{
    shared.load::<Clear<J>>(seat, 0);
}
