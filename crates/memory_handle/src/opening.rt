//! A memory is made.
ghost use Rattle.std.specs.Prelude.{◌≡◌, [], IfOk, length, true};
ghost use Rattle.memory_handle.specs.Handles.{handle_origin, handle_seen};

use crate::handles::Handle;
use llsc_base::{Image, MachineSize};
use std::alloc::{AllocError, Global};
use std::sync::Arc;
use version_memory::VersionMemory;

impl Handle {
    /// A memory that has these bytes at first, as many as its size says, and all of its threads, which begin by themselves. The
    /// size says how many bytes, threads and classes of rows there are, how many writes a class takes, and how wide a row is.
    ///
    /// # Errors
    ///
    /// `AllocError` is want of memory.
    pub fn open(alloc: Global, bytes: &[u8], size: &MachineSize) -> Result<Handle, AllocError>
        requires { length bytes.now ≡ size.now.mem }
        ensures origin { IfOk result (λ handle. handle_origin handle ≡ record {
          size = size.now;
          first = size.now.threads;
          spare = 0;
          bytes = bytes.now;
          spends = true;
          steady = true;
        }) }
        ensures seen { IfOk result (λ handle. handle_seen handle ≡ []) }
        ensures all { IfOk result (λ handle. (handle.first ≡ 0) × (handle.upto ≡ size.now.threads)) }
        ensures fresh { IfOk result (λ handle. handle.fresh ≡ true) }
    {
        let image = Image::of(Vec::from_slice(alloc, bytes)?, Vec::new(alloc), 0);
        let (memory, pass) = VersionMemory::new(alloc, &image, size)?;
        let memory = Arc::new(alloc, memory)?;
        Ok(Handle {
            memory,
            pass,
            first: 0,
            upto: size.threads(),
            mem: size.mem(),
            fresh: true,
        })
    }

    /// How many bytes memory has: from 65,536 to 16,777,216.
    #[inline]
    pub fn mem(&self) -> u32
        ensures { result ≡ (handle_origin self.now).size.mem }
    {
        self.mem
    }
}
