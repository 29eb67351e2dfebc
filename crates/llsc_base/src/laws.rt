//! Laws of rows, each a function of no effect whose contract is the law.
ghost use Rattle.std.specs.Prelude.{◌≡◌, ◌/◌, ℕ};
ghost use Rattle.llsc_base.specs.Memory.{cell_of, row_of};
ghost use Rattle.llsc_base.specs.declared.access.Place.{Place};

/// With the least granule a row has eight bytes.
#[tactic(auto, unfolding(crate::specs::Memory::row_of))]
pub fn least_rows_have_eight_bytes()
    ensures { (place : Place) → row_of 0 place ≡ place.addr / 8 }
{}

/// Whatever the granule is, a row is whole cells: places of one cell are of one row.
pub fn rows_are_whole_cells()
    ensures { (granule : ℕ) (place other : Place) → cell_of place ≡ cell_of other → row_of granule place ≡ row_of granule other }
{}
