//! The handle.
ghost use Rattle.std.specs.Prelude.{◌≡◌, ◌+◌, ◌<◌, ◌≤◌, ℕ, [], true};
ghost use Rattle.std.specs.Arc.{arc_value};
ghost use Rattle.history.specs.Parts.{entries_of};
ghost use Rattle.shared_memory.specs.Seen.{IsOneOf};
ghost use Rattle.version_memory.specs.Memory.{memory_id, memory_origin, pass_home, pass_numbers, pass_seen};
ghost use Rattle.memory_handle.specs.Numbers.{AreFrom};

use std::alloc::Global;
use std::sync::Arc;
use version_memory::{VersionMemory, VersionPass};

/// Guest threads of a memory, one or several in a row, and the memory with them.
///
/// A handle of one thread makes its accesses. One handle's calls come one after the other; those of different handles may run
/// beside each other on host threads.
///
/// ```
/// let mut first = Handle::open(alloc, &bytes, &size)?; // threads 0 and 1
/// let mut second = first.split()?; // thread 1
/// let (value, reserved) = first.load_ex(0x2000, 4)?;
/// second.store(0x2000, 4, 7)?;
/// let stored = first.store_ex(0x2000, 4, value + 1)?; // false
/// first.join(second);
/// first.close(&mut bytes);
/// ```
#[derive(Drop)]
pub struct Handle {
    pub(crate) memory: Arc<VersionMemory, Global>,
    pub(crate) pass: VersionPass,
    /// The first thread.
    pub(crate) first: u32,
    /// The thread behind the last.
    pub(crate) upto: u32,
    /// How many bytes memory has.
    pub(crate) mem: u32,
    /// Whether no threads were taken in.
    pub(crate) fresh: bool,
    ghost home: { pass_home pass ≡ memory_id (arc_value memory) },
    ghost numbers: { AreFrom first upto (pass_numbers pass) },
    ghost some: { first < upto },
    ghost most: { upto ≤ (memory_origin (arc_value memory)).first },
    ghost sized: { mem ≡ (memory_origin (arc_value memory)).size.mem },
    ghost large: { 65536 ≤ mem },
    // where they are several, none has made an access before they were taken in
    ghost unused: { first + 1 < upto → fresh ≡ true → (thread : ℕ) → IsOneOf thread (pass_numbers pass) → entries_of thread (pass_seen pass) ≡ [] },
}
