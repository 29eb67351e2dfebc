//! Laws on cells, each a function of no effect whose contract is the law.
ghost use Rattle.std.specs.Prelude.{◌≡◌, ◌+◌, ◌*◌, ◌^◌, ◌<◌, ◌≤◌, ◌⊎◌, ℕ, IsTrue, length, slice_index, slice_set};
ghost use Rattle.llsc_base.specs.Memory.{cell_of, is_aligned, size_bytes, stored, value_at};
ghost use Rattle.row_bytes.specs.Cell.{bytes_of_cells, cell_with, place_in_cell, value_in_cell};

use llsc_base::Place;

/// A place holds what was put there.
pub fn put_sets_its_place(cell: u64, place: Place, value: u64)
    requires aligned { IsTrue (is_aligned place) }
    requires fits { value < 256 ^ size_bytes place.size }
    ensures { value_in_cell (cell_with cell place value) place ≡ value }
{}

/// A place of the cell that shares no byte with the one that is put holds what it held.
pub fn put_keeps_other_places(cell: u64, place: Place, value: u64, other: Place)
    requires aligned { IsTrue (is_aligned place) }
    requires other_aligned { IsTrue (is_aligned other) }
    requires apart { let one = place_in_cell place in
        let two = place_in_cell other in
        (one.addr + size_bytes one.size ≤ two.addr) ⊎ (two.addr + size_bytes two.size ≤ one.addr) }
    ensures { value_in_cell (cell_with cell place value) other ≡ value_in_cell cell other }
{}

/// In memory made of cells the value of a place is that of its cell, and a store is a put into its cell.
pub fn memory_is_its_cells(cells: &[u64], place: Place, value: u64)
    requires aligned { IsTrue (is_aligned place) }
    requires inside { place.addr + size_bytes place.size ≤ 8 * length cells.now }
    ensures value { value_at (bytes_of_cells cells.now) place ≡ value_in_cell (slice_index cells.now (cell_of place)) place }
    ensures store { let cell = slice_index cells.now (cell_of place) in
        stored (bytes_of_cells cells.now) place value
        ≡ bytes_of_cells (slice_set cells.now (cell_of place) (cell_with cell place value)) }
{}
