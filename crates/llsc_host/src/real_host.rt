//! The host of the program as it runs: files by their paths, and standard output.
//!
//! This is the trusted edge. No clause says what a file holds or what reaches the output.
ghost use Rattle.std.specs.Prelude.{◌≡◌, ℕ, ◌<◌, ◌≤◌, List, [], length, take, IfOk, IsTrue, OnErr};
ghost use Rattle.std.specs.Io.KnownBytes.{Appends};
ghost use Rattle.llsc_host.specs.Host.{AreBytes};

use crate::host::{Failed, Host, ReadFault};
use std::alloc::Global;
use std::io::{ErrorKind, Read, Write};
use std::rt::Files;
use std::{fs, io};

/// How many bytes one read asks for at most.
const PIECE: usize = 8192;

/// Reads files and writes to standard output, through a runtime. It keeps its two counts and the
/// lost name itself, and tells no contents.
#[derive(Drop)]
pub struct RealHost<R> {
    runtime: R,
    read_faults: u64,
    write_faults: u64,
    lost: String,
}

impl<R: Files + Print> RealHost<R> {
    /// A host over this runtime, with no failures so far.
    pub fn new(alloc: Global, runtime: R) -> RealHost<R>
        ensures read_faults { ⟦<RealHost<R> as Host>⟧.read_faults result ≡ 0 }
        ensures write_faults { ⟦<RealHost<R> as Host>⟧.write_faults result ≡ 0 }
        ensures lost { ⟦<RealHost<R> as Host>⟧.lost result ≡ [] }
    {
        RealHost {
            runtime,
            read_faults: 0,
            write_faults: 0,
            lost: String::new(alloc),
        }
    }
}

impl<R: Files + Print> Host for RealHost<R> {
    ghost use Rattle.std.specs.Prelude.{None, string_bytes};

    ghost file = { λ host name. None };

    ghost written = { λ host. None };

    ghost read_faults = { λ host. host.read_faults };

    ghost write_faults = { λ host. host.write_faults };

    ghost lost = { λ host. string_bytes host.lost };

    fn read_file(
        &mut self,
        alloc: Global,
        name: String,
        most: usize,
    ) -> Result<Vec<u8>, ReadFault> {
        let answer = read_opened(alloc, fs::open(&self.runtime, name.as_str()), most);
        if matches!(&answer, Err(ReadFault::Failed)) {
            self.read_faults = self.read_faults.saturating_add(1);
            self.lost = name;
        }
        answer
    }

    fn write(&mut self, bytes: &[u8]) -> Result<(), Failed> {
        if write_whole(&mut io::writer(&self.runtime), bytes) {
            return Ok(());
        }
        self.write_faults = self.write_faults.saturating_add(1);
        Err(Failed)
    }
}

/// All that an opened file has left, of `most` bytes at most. One that could not be opened is a failed read.
fn read_opened<F: Read + Drop>(
    alloc: Global,
    opened: io::Result<F>,
    most: usize,
) -> Result<Vec<u8>, ReadFault>
    ensures unopened { OnErr opened (result ≡ Err ReadFault.Failed) }
    ensures whole { IfOk opened (λ file. IfOk result (λ bytes. AreBytes (F.remaining file) bytes.items)) }
    ensures fits { IfOk result (λ bytes. length bytes.items ≤ most) }
    ensures too_long { result ≡ Err ReadFault.FileTooLong → IfOk opened (λ file. (bytes : List ℕ) × AreBytes (F.remaining file) bytes × (most < length bytes)) }
{
    match opened {
        Ok(mut file) => read_within(alloc, &mut file, most),
        Err(_) => Err(ReadFault::Failed),
    }
}

/// All that the reader has left, of `most` bytes at most. It takes no more than one byte past these.
fn read_within<R: Read>(alloc: Global, file: &mut R, most: usize) -> Result<Vec<u8>, ReadFault>
    ensures whole { IfOk result (λ bytes. AreBytes (R.remaining file.old) bytes.items) }
    ensures fits { IfOk result (λ bytes. length bytes.items ≤ most) }
    ensures too_long { result ≡ Err ReadFault.FileTooLong →
        (bytes : List ℕ) × AreBytes (R.remaining file.old) bytes × (most < length bytes) }
{
    let mut bytes = Vec::new(alloc);
    let mut piece = [0u8; PIECE];
    for _ in 0..u64::MAX {
        let room = most - bytes.len();
        let wanted = room.saturating_add(1).min(PIECE);
        match file.read(&mut piece[..wanted]) {
            Ok(0) => return Ok(bytes),
            Ok(count) if count > room => return Err(ReadFault::FileTooLong),
            Ok(count) => {
                if bytes.extend_from_slice(&piece[..count]).is_err() {
                    return Err(ReadFault::Memory);
                }
            }
            Err(error) if matches!(error.kind(), ErrorKind::Interrupted) => {}
            Err(_) => return Err(ReadFault::Failed),
        }
    }
    Err(ReadFault::Failed)
}

/// Writes all of the bytes, or answers false after some of them.
fn write_whole<W: Write>(output: &mut W, bytes: &[u8]) -> bool
    ensures whole { IsTrue result → Appends (W.contents output.old) (W.contents output.new) bytes.now }
    ensures front { (k : ℕ) × Appends (W.contents output.old) (W.contents output.new) (take k bytes.now) }
{
    let mut done = 0;
    for _ in 0..u64::MAX {
        if done >= bytes.len() {
            return true;
        }
        match output.write(&bytes[done..]) {
            Ok(0) => return false,
            Ok(count) => done += count,
            Err(error) if matches!(error.kind(), ErrorKind::Interrupted) => {}
            Err(_) => return false,
        }
    }
    false
}
