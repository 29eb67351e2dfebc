//! Laws of histories, each a function of no effect whose contract is the law.
//!
//! How things stand after a history (`standing_after`) is one record that grows entry by entry. The laws named
//! `.._the_fold` say that each of its parts is what a definition of this crate says of the history.
ghost use Rattle.std.specs.Prelude.{◌≡◌, ◌+◌, ◌*◌, ◌%◌, ◌<◌, ◌≤◌, ◌↔◌, ◌++◌, ◌∷◌, [], ℕ, IsTrue, length, true, unwrap_or, Some};
ghost use Rattle.std.specs.List.{list_any};
ghost use Rattle.llsc_base.specs.Memory.{cell_of, class_of, is_aligned, row_of, size_bytes, value_at};
ghost use Rattle.llsc_base.specs.Sizes.{Numbers};
ghost use Rattle.row_bytes.specs.Cell.{cell_at, value_in_cell};
ghost use Rattle.history.specs.Parts.{accesses_of};
ghost use Rattle.history.specs.Monitor.{at_rest_by, marked_row, monitor_after};
ghost use Rattle.history.specs.ArmLegal.{IsArmLegal};
ghost use Rattle.history.specs.Marked.{HoldsWhatWasRead, IsUnwrittenSince};
ghost use Rattle.history.specs.Reservation.{reservation_of};
ghost use Rattle.history.specs.Cause.{flight_of, is_begin, is_begin_of_another, is_start_of_another, since_watch, writes_in_class};
ghost use Rattle.history.specs.Class.{comer_in, edges_of, last_of, name_of, writer_in};
ghost use Rattle.history.specs.Legal.{IsComplete, IsLegal};
ghost use Rattle.history.specs.Standing.{rests, standing_after, standing_of};
ghost use Rattle.history.specs.Follow.{MayFollow, flight_at};

use crate::entry::Entry;
use llsc_base::{MachineSize, Place};

/// Each beginning of a legal history is legal.
pub fn prefixes_are_legal(size: &MachineSize, bytes: &[u8], front: &[Entry], back: &[Entry])
    requires { IsLegal size.now bytes.now (front.now ++ back.now) }
    ensures { IsLegal size.now bytes.now front.now }
{}

/// A store-exclusive that succeeds, among accesses that Arm allows, stands behind a load-exclusive of its thread from the
/// same row, and between the two nobody has written in the row, whatever value and however wide rows are.
pub fn successful_stores_are_undisturbed(
    granule: u32,
    bytes: &[u8],
    threads: u32,
    front: &[Entry],
    back: &[Entry],
    thread: u32,
    place: Place,
    value: u64,
)
    requires { IsArmLegal (at_rest_by granule bytes.now threads) (front.now ++ Entry.Write thread place value true ∷ back.now) }
    ensures { IsUnwrittenSince (at_rest_by granule bytes.now threads) front.now thread (row_of granule place) }
{}

/// A store-exclusive that succeeds, among accesses that Arm allows, finds in memory what the last load-exclusive of its thread
/// read, at the place of that load-exclusive, which is of the same row.
pub fn successful_stores_find_what_was_read(
    granule: u32,
    bytes: &[u8],
    threads: u32,
    front: &[Entry],
    back: &[Entry],
    thread: u32,
    place: Place,
    value: u64,
)
    requires { IsArmLegal (at_rest_by granule bytes.now threads) (front.now ++ Entry.Write thread place value true ∷ back.now) }
    ensures { HoldsWhatWasRead (at_rest_by granule bytes.now threads) front.now thread (row_of granule place) }
{}

/// Where a thread is marked on a row after accesses that Arm allows, its last load-exclusive read that row, and nobody has
/// written in the row since, so each byte of it is what it was.
pub fn marks_keep_their_rows(
    granule: u32,
    bytes: &[u8],
    threads: u32,
    accesses: &[Entry],
    thread: u32,
    row: u32,
)
    requires legal { IsArmLegal (at_rest_by granule bytes.now threads) accesses.now }
    requires marked { marked_row (monitor_after (at_rest_by granule bytes.now threads) accesses.now) thread ≡ Some row }
    ensures { IsUnwrittenSince (at_rest_by granule bytes.now threads) accesses.now thread row }
{}

/// The memory that a history leaves is the cells that stand after it.
pub fn memory_is_the_fold(bytes: &[u8], threads: u32, history: &[Entry], place: Place)
    requires whole { length bytes.now % 8 ≡ 0 }
    ensures cells { (size : Numbers) → IsArmLegal (at_rest_by size.granule bytes.now threads) (accesses_of history.now) →
        let memory = (monitor_after (at_rest_by size.granule bytes.now threads) (accesses_of history.now)).memory in
        let cells = (standing_after size (standing_of bytes.now) history.now).cells in
        (i : ℕ) → 8 * i + 8 ≤ length bytes.now → cells i ≡ cell_at memory i }
    ensures values { (size : Numbers) → IsArmLegal (at_rest_by size.granule bytes.now threads) (accesses_of history.now) →
        let memory = (monitor_after (at_rest_by size.granule bytes.now threads) (accesses_of history.now)).memory in
        let cells = (standing_after size (standing_of bytes.now) history.now).cells in
        IsTrue (is_aligned place) → place.addr + size_bytes place.size ≤ length bytes.now
        → value_at memory place ≡ value_in_cell (cells (cell_of place)) place }
{}

/// The row on which a thread is marked after a history is the mark that stands.
pub fn mark_is_the_fold(bytes: &[u8], threads: u32, history: &[Entry], thread: u32)
    ensures { (size : Numbers) → IsArmLegal (at_rest_by size.granule bytes.now threads) (accesses_of history.now) →
        marked_row (monitor_after (at_rest_by size.granule bytes.now threads) (accesses_of history.now)) thread
        ≡ (standing_after size (standing_of bytes.now) history.now).mark thread }
{}

/// The reservation of a thread after a history is the one that stands.
pub fn reservation_is_the_fold(bytes: &[u8], history: &[Entry], thread: u32)
    ensures { (size : Numbers) → reservation_of size thread history.now
        ≡ (standing_after size (standing_of bytes.now) history.now).reserved thread }
{}

/// Where a thread holds a reservation on a row, what has passed in its class since its Watch is what stands.
pub fn causes_are_the_fold(bytes: &[u8], history: &[Entry], thread: u32, row: u32)
    ensures passed { (size : Numbers) → reservation_of size thread history.now ≡ Some row →
        list_any (is_start_of_another size thread row) (since_watch thread history.now)
        ≡ (standing_after size (standing_of bytes.now) history.now).passed thread }
    ensures overtaken { (size : Numbers) → reservation_of size thread history.now ≡ Some row →
        list_any (is_begin_of_another size thread row) (since_watch thread history.now)
        ≡ (standing_after size (standing_of bytes.now) history.now).overtaken thread }
    ensures stirred { (size : Numbers) → reservation_of size thread history.now ≡ Some row →
        list_any (is_begin size row) (since_watch thread history.now)
        ≡ (standing_after size (standing_of bytes.now) history.now).stirred thread }
{}

/// What a history says of the class of a row is what stands: how many Writes it has had, how many Begins and Ends, and
/// the threads of its last Begin and of its last Watch or Begin.
pub fn classes_are_the_fold(bytes: &[u8], history: &[Entry], row: u32)
    ensures writes { (size : Numbers) → writes_in_class size row history.now
        ≡ (standing_after size (standing_of bytes.now) history.now).writes (class_of size.classes row) }
    ensures edges { (size : Numbers) → edges_of size row history.now
        ≡ (standing_after size (standing_of bytes.now) history.now).edges (class_of size.classes row) }
    ensures holder { (size : Numbers) → unwrap_or (last_of (writer_in size row) history.now) 0
        ≡ (standing_after size (standing_of bytes.now) history.now).holder (class_of size.classes row) }
    ensures name { (size : Numbers) → name_of (last_of (comer_in size row) history.now)
        ≡ (standing_after size (standing_of bytes.now) history.now).name (class_of size.classes row) }
{}

/// The write of a thread that is in flight after a legal history is the one that stands.
pub fn flight_is_the_fold(size: &MachineSize, bytes: &[u8], history: &[Entry], thread: u32)
    requires sized { length bytes.now ≡ size.now.mem }
    requires whole { size.now.mem % 8 ≡ 0 }
    requires legal { IsLegal size.now bytes.now history.now }
    ensures { flight_of thread history.now
        ≡ flight_at ((standing_after size.now (standing_of bytes.now) history.now).stage thread) }
{}

/// A history is legal exactly where each of its entries may come as things stand before it.
pub fn legality_is_the_fold(size: &MachineSize, bytes: &[u8], history: &[Entry])
    requires sized { length bytes.now ≡ size.now.mem }
    requires whole { size.now.mem % 8 ≡ 0 }
    ensures { IsLegal size.now bytes.now history.now ↔ MayFollow size.now (standing_of bytes.now) history.now }
{}

/// A legal history is complete exactly where no thread stands inside an operation after it.
pub fn complete_histories_rest(size: &MachineSize, bytes: &[u8], history: &[Entry])
    requires sized { length bytes.now ≡ size.now.mem }
    requires whole { size.now.mem % 8 ≡ 0 }
    requires legal { IsLegal size.now bytes.now history.now }
    ensures { IsComplete history.now
        ↔ ((t : ℕ) → (standing_after size.now (standing_of bytes.now) history.now).stage t ≡ rests) }
{}
