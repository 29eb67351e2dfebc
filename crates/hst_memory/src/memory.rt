//! The memory.
ghost use Rattle.std.specs.Prelude.{◌≡◌};
ghost use Rattle.hst_memory.specs.Passes.{IsMade};

use crate::plans::HstTable;
use llsc_base::MachineSize;

/// A memory that guest threads share, kept by names and a section (the hash-table store test).
///
/// A load is one load of a cell. A store comes into a section that stores share, puts the name of its thread into the tag of
/// its class of rows, changes the cell, and leaves. A load-exclusive and a store-exclusive are in the section alone: the
/// first puts its name into the tag, and the second succeeds just where it is there still.
#[derive(Drop)]
pub struct HstMemory {
    pub(crate) table: HstTable,
    pub(crate) size: MachineSize,
    ghost sized: { size ≡ table.shared.key.size },
    ghost made: { IsMade table.shared.key table.shared.table_id },
}
