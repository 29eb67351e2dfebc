//! The memory.
ghost use Rattle.std.specs.Prelude.{◌≡◌};
ghost use Rattle.version_memory.specs.Passes.{IsMade};

use llsc_base::MachineSize;
use version_rule::VersionTable;

/// A memory that guest threads share, kept by versions.
///
/// Each class of rows has a tag: twice the number of its writes that are over, and one more while one of them is in flight. A
/// load is one load of a cell. A store claims its class, by a tag that was even and becomes odd; then it loads the cell,
/// stores it changed, and gives the class back with the next even tag. A load-exclusive keeps the even tag that it finds, and
/// its store-exclusive claims the class by that tag alone: it succeeds just where no write has begun in the class since. A
/// thread that doesn't begin by itself has a word, which the thread that starts it sets, and for which it waits.
///
/// ```
/// let (memory, mut pass) = VersionMemory::new(alloc, &image, &size)?;
/// let mut other = memory.split(&mut pass, 1); // thread 1's; `pass` keeps thread 0
/// let value = memory.load_ex(rt, &mut pass, word);
/// memory.store(rt, &mut other, word, 7)?;
/// let stored = memory.store_ex(rt, &mut pass, word, value + 1); // false
/// memory.join(&mut pass, other);
/// let (cells, story) = memory.close(pass);
/// ```
#[derive(Drop)]
pub struct VersionMemory {
    pub(crate) table: VersionTable,
    pub(crate) size: MachineSize,
    /// How many threads begin by themselves.
    pub(crate) first: u32,
    /// How many threads each of these may start.
    pub(crate) spare: u32,
    ghost sized: { size ≡ table.shared.key.size },
    ghost dealt: { (first ≡ table.shared.key.first) × (spare ≡ table.shared.key.spare) },
    ghost made: { IsMade table.shared.key table.shared.table_id },
}
