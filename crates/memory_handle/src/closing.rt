//! The memory is closed.
ghost use Rattle.std.specs.Prelude.{◌≡◌, length, true};
ghost use Rattle.memory_handle.specs.Handles.{handle_origin, has_all};
ghost use Rattle.memory_handle.specs.Left.{IsLeft};

use crate::handles::Handle;
use shared_memory::SharedMemory;

impl Handle {
    /// Whether the handle has all threads of its memory.
    #[inline]
    pub fn has_all(&self) -> bool
        ensures { result ≡ has_all self.now }
    {
        self.first == 0 && self.upto == self.memory.size().threads()
    }

    /// Closes the memory, by the handle of all threads (see [`Handle::has_all`]), and writes its bytes as they are left. There
    /// are as many of them as memory has (see [`Handle::mem`]).
    pub fn close(self, bytes: &mut [u8])
        requires all { has_all self ≡ true }
        requires bytes { length bytes.old ≡ (handle_origin self).size.mem }
        ensures left { IsLeft self bytes.new }
    {
        let Handle {
            memory,
            mut pass,
            first: _,
            upto: _,
            mem,
            fresh: _,
        } = self;
        for cell in 0..mem / 8 {
            let at = 8 * cell as usize;
            let left = memory.cell_left(&mut pass, cell);
            bytes[at..at + 8].copy_from_slice(&left.to_le_bytes());
        }
    }
}
