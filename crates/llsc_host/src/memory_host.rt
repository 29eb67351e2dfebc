//! A host in memory, which tells everything: for tests and for proofs about whole calls.
ghost use Rattle.std.specs.Prelude.{◌≡◌, ◌≤◌, List, [], IfOk, Some, string_bytes, length, is_ok};
ghost use Rattle.std.specs.Option.{option_copied};
ghost use Rattle.llsc_host.specs.MemoryHost.{IsReadAnswer, after_read, after_write, bytes_within, failure_at, file_of, goes_through, read_of};

use crate::host::{Failed, Host, ReadFault};
use std::alloc::{AllocError, Global};
use std::marker::Model;

/// A host whose files, failures and output are in memory. Its calls, reads and writes together,
/// count from 0.
#[derive(Drop)]
pub struct MemoryHost {
    files: Vec<(String, Vec<u8>)>,
    failing: Vec<(u64, u32)>,
    space: usize,
    calls: u64,
    written: Vec<u8>,
    read_faults: u64,
    write_faults: u64,
    lost: String,
}

impl Model for MemoryHost {
    ghost use Rattle.llsc_host.specs.MemoryHost.{Held};

    ghost Value = { Held };

    ghost use Rattle.llsc_host.specs.MemoryHostInside.{IsReserved};
    ghost use Rattle.llsc_host.specs.inner.MemoryHostInside.{held_of};

    ghost view = { held_of };

    ghost invariant = { IsReserved };
}

impl MemoryHost {
    /// A host that has these files, of which the first of a name counts, and room for `space`
    /// bytes of output. A pair `(i, k)` of `failing`, the first with that `i`, lets call `i` fail;
    /// a write lets `k` bytes through then, or all of them where there are fewer.
    pub fn new(
        alloc: Global,
        files: Vec<(String, Vec<u8>)>,
        failing: Vec<(u64, u32)>,
        space: u32,
    ) -> Result<MemoryHost, AllocError>
        ensures { IfOk result (λ host. host ≡ record {
          files = files.items;
          failing = failing.items;
          space = space;
          calls = 0;
          written = [];
          read_faults = 0;
          write_faults = 0;
          lost = [];
        }) }
    {
        let space = space as usize;
        Ok(MemoryHost {
            files,
            failing,
            space,
            calls: 0,
            written: Vec::with_capacity(alloc, space)?,
            read_faults: 0,
            write_faults: 0,
            lost: String::new(alloc),
        })
    }

    /// What was written so far.
    pub fn written(&self) -> &[u8]
        ensures { result.now ≡ self.now.written }
    {
        self.written.as_slice()
    }
}

/// The bytes of the first file of that name.
fn file_of<'a>(files: &'a [(String, Vec<u8>)], name: &str) -> Option<&'a [u8]>
    ensures { option_copied result ≡ file_of files.now name.now }
{
    files
        .iter()
        .find(|file| file.0.as_str() == name)
        .map(|file| file.1.as_slice())
}

/// How many bytes the call lets through, where it is one that fails.
fn failure_at(failing: &[(u64, u32)], call: u64) -> Option<u32>
    ensures { result ≡ failure_at failing.now call }
{
    failing
        .iter()
        .find(|pair| pair.0 == call)
        .map(|pair| pair.1)
}

/// A copy of a file's bytes, where there are `most` at most.
///
/// # Errors
///
/// `FileTooLong` where there are more, and `Memory` for want of memory.
pub fn copy_within(alloc: Global, bytes: &[u8], most: usize) -> Result<Vec<u8>, ReadFault>
    ensures { IsReadAnswer (bytes_within most (Some bytes.now)) result }
{
    if bytes.len() > most {
        return Err(ReadFault::FileTooLong);
    }
    bytes.to_vec(alloc).map_err(|_| ReadFault::Memory)
}

impl Host for MemoryHost {
    ghost use Rattle.std.specs.Prelude.{Some};
    ghost use Rattle.llsc_host.specs.MemoryHost.{file_of};

    ghost file = { λ held name. file_of held.files name };

    ghost written = { λ held. Some held.written };

    ghost read_faults = { λ held. held.read_faults };

    ghost write_faults = { λ held. held.write_faults };

    ghost lost = { λ held. held.lost };

    /// A read of a name that it does not hold fails, and so does one whose call is to fail.
    fn read_file(&mut self, alloc: Global, name: String, most: usize) -> Result<Vec<u8>, ReadFault>
        ensures answer { IsReadAnswer (read_of self.old (string_bytes name) most) result }
        ensures state { self.new ≡ after_read self.old (string_bytes name) (read_of self.old (string_bytes name) most) }
        ensures later { self.old.read_faults ≤ self.new.read_faults }
    {
        let is_failing = failure_at(&self.failing, self.calls).is_some();
        self.calls = self.calls.saturating_add(1);
        match file_of(&self.files, name.as_str()) {
            Some(bytes) if !is_failing => copy_within(alloc, bytes, most),
            _ => {
                self.read_faults = self.read_faults.saturating_add(1);
                self.lost = name;
                Err(ReadFault::Failed)
            }
        }
    }

    /// A write past the space fails, and so does one whose call is to fail.
    fn write(&mut self, bytes: &[u8]) -> Result<(), Failed>
        ensures answer { is_ok result ≡ goes_through self.old (length bytes.now) }
        ensures state { self.new ≡ after_write self.old bytes.now }
        ensures later { self.old.write_faults ≤ self.new.write_faults }
    {
        let failure = failure_at(&self.failing, self.calls);
        self.calls = self.calls.saturating_add(1);
        let room = bytes.len().min(self.space - self.written.len());
        let passed = match failure {
            None => room,
            Some(most) => room.min(most as usize),
        };
        self.written.extend_from_slice(&bytes[..passed]).unwrap();
        if failure.is_none() && room == bytes.len() {
            return Ok(());
        }
        self.write_faults = self.write_faults.saturating_add(1);
        Err(Failed)
    }
}
