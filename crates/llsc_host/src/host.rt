//! What the program asks of the world outside: files to read and an output to write.
ghost use Rattle.std.specs.Prelude.{◌≡◌, ◌⊎◌, ℕ, ◌<◌, ◌≤◌, List, length, Option, Some, IfOk, OnOk, OnErr, codes, string_bytes};
ghost use Rattle.llsc_host.specs.Host.{Adds, AddsFront, AreBytes, Rose, read_fault_name};

use std::alloc::Global;
use thiserror::Error;

/// Why a file could not be had.
#[derive(Clone, Copy, Debug, PartialEq, Eq, Error)]
pub enum ReadFault {
    /// The host could not read the file.
    #[error("the read failed")]
    Failed,
    /// The file has more bytes than were asked for at most. This is no fault of the host.
    #[error("the file is too long")]
    FileTooLong,
    /// There is no memory for the file's bytes.
    #[error("out of memory")]
    Memory,
}

impl ReadFault {
    /// The fault's name, as a report prints it.
    pub fn name(&self) -> &str
        ensures { result.now ≡ read_fault_name self.now }
    {
        match self {
            ReadFault::Failed => "Failed",
            ReadFault::FileTooLong => "FileTooLong",
            ReadFault::Memory => "Memory",
        }
    }
}

/// The host could not write all of the bytes.
#[derive(Clone, Copy, Debug, PartialEq, Eq, Error)]
#[error("the write failed")]
pub struct Failed;

impl Failed {
    /// The fault's name.
    pub fn name(&self) -> &str
        ensures { result.now ≡ codes "Failed" }
    {
        "Failed"
    }
}

/// The outside of the program. Two counts, of the reads and of the writes that failed, say when a
/// failure came; each stays at 2^64 - 1 once it is there.
pub trait Host {
    /// What the file of a name holds, where that is told.
    ghost file: { Self → List ℕ → Option (List ℕ) };

    /// What was written so far, where that is told.
    ghost written: { Self → Option (List ℕ) };

    /// How many reads failed so far.
    ghost read_faults: { Self → ℕ };

    /// How many writes failed so far.
    ghost write_faults: { Self → ℕ };

    /// The name of the last read that failed, empty before the first.
    ghost lost: { Self → List ℕ };

    /// Reads the whole file `name`, of `most` bytes at most. `FileTooLong` comes where the file has
    /// more and the read did not fail; `Memory` is want of memory.
    fn read_file(&mut self, alloc: Global, name: String, most: usize) -> Result<Vec<u8>, ReadFault>
        ensures whole { IfOk result (λ v. AreBytes (file self.old (string_bytes name)) v.items) }
        ensures fits { IfOk result (λ v. length v.items ≤ most) }

        // A file that is longer is refused as such, unless the read failed.
        ensures too_long { result ≡ Err ReadFault.FileTooLong →
            (bytes : List ℕ) × AreBytes (file self.old (string_bytes name)) bytes × (most < length bytes) }
        ensures longer { (bytes : List ℕ) → file self.old (string_bytes name) ≡ Some bytes → most < length bytes →
            (result ≡ Err ReadFault.FileTooLong) ⊎ (result ≡ Err ReadFault.Failed) }

        // A failure shows in the count and in the name; no other answer changes these.
        ensures cause { result ≡ Err ReadFault.Failed →
            Rose (read_faults self.old) (read_faults self.new) × (lost self.new ≡ string_bytes name) }
        ensures other { (result ≡ Err ReadFault.Failed → ⊥) →
            (read_faults self.new ≡ read_faults self.old) × (lost self.new ≡ lost self.old) }
        ensures later { read_faults self.old ≤ read_faults self.new }

        // What a read leaves as it is.
        ensures files { file self.new ≡ file self.old }
        ensures written { written self.new ≡ written self.old }
        ensures write_faults { write_faults self.new ≡ write_faults self.old };

    /// Writes the bytes to the output. After an `Err` the first of them were written, maybe none.
    fn write(&mut self, bytes: &[u8]) -> Result<(), Failed>
        ensures whole { OnOk result (Adds (written self.old) (written self.new) bytes.now) }
        ensures front { OnErr result (AddsFront (written self.old) (written self.new) bytes.now) }

        // A failure shows in the count; no other answer changes it.
        ensures cause { OnErr result (Rose (write_faults self.old) (write_faults self.new)) }
        ensures other { OnOk result (write_faults self.new ≡ write_faults self.old) }
        ensures later { write_faults self.old ≤ write_faults self.new }

        // What a write leaves as it is.
        ensures files { file self.new ≡ file self.old }
        ensures read_faults { read_faults self.new ≡ read_faults self.old }
        ensures lost { lost self.new ≡ lost self.old };
}
