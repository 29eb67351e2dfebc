//! Whole calls over a host in memory, and each host by itself. What calls answer where no host fails is told by the tables of
//! `examples/calls`.
use llsc_call::llsc;
use llsc_host::MemoryHost;
use std::alloc::{AllocError, Global};
use std::fmt::Debug;
use std::process::Abort;
use std::sync::Wait;
use std::test::Fail;
use std::thread::Threads;

mod beside;
mod commands;
mod failing_hosts;
mod hosts;
mod names;
mod steady_hosts;

/// A program that leaves with code 0 in three steps.
const LEAVE: &[u32] = &[0xe3a0_0000, 0xe3a0_7001, 0xef00_0000];

/// The report of that program.
const LEFT: &str = "thread 0 stop exit 0 steps 3 out 0\n\nreads 0 writes 0 fails 0\n";

/// The record of that program by one thread.
const RECORD: &str = "llsc-run 1 threads 1 budget 10000 accesses 0\n";

/// Writes the two bytes behind its code, and leaves with 0.
const HI: &[u32] = &[
    0xe3a00001, 0xe28f1014, 0xe3a02002, 0xe3a07004, 0xef000000, 0xe3a00000, 0xe3a07001, 0xef000000,
    0x00006948,
];

/// The files of a host that hold programs, each word from its low byte on.
const PROGRAMS: &[(&str, &[u32])] = &[("leave", LEAVE), ("hi", HI)];

/// The files of a host that hold texts.
const TEXTS: &[(&str, &str)] = &[
    ("text", ".word 0x64636261"),
    ("nop", "nop"),
    ("fly", "fly"),
    ("record", RECORD),
];

/// The call of a host that fails, with what it lets through.
type Failing = (u64, u32);

/// The space for output of a host that is not to be full.
const SPACE: u32 = 100_000;

/// Makes a call over a host with all files that fails so and has so much space, and compares its status and what it writes.
fn compare<R: Threads + Wait + Sync + AllocGlobal + Abort>(
    rt: &R,
    words: &str,
    failing: &[Failing],
    space: u32,
    answer: (u8, &[u8]),
) -> Result<(), Fail> {
    let (status, written) = called(rt, words, files(rt.alloc())?, failing, space)?;
    let given = (words, failing, (status, written.as_slice()));
    same(rt, given, (words, failing, answer));
    Ok(())
}

/// Compares what is there with what is wanted.
fn same<R: Abort, T: PartialEq + Debug + Copy>(rt: &R, given: T, wanted: T) {
    assert_eq!(rt; given, wanted);
}

/// All files of a host.
fn files(alloc: Global) -> Result<Vec<(String, Vec<u8>)>, AllocError> {
    let mut files = Vec::new(alloc);
    for (name, program) in PROGRAMS {
        files.push((String::from_str(alloc, name)?, bytes_of(alloc, program)?))?;
    }
    for (name, text) in TEXTS {
        files.push((
            String::from_str(alloc, name)?,
            text.as_bytes().to_vec(alloc)?,
        ))?;
    }
    Ok(files)
}

/// One file, of this name and with these bytes.
fn holding(alloc: Global, name: &str, file: Vec<u8>) -> Result<Vec<(String, Vec<u8>)>, AllocError> {
    Ok(vec![in alloc; (String::from_str(alloc, name)?, file)]?)
}

/// The words of a call, with single spaces between them, as texts of their own.
fn owned(alloc: Global, words: &str) -> Result<Vec<String>, AllocError> {
    let mut texts = Vec::new(alloc);
    for word in words.split(' ') {
        texts.push(String::from_str(alloc, word)?)?;
    }
    Ok(texts)
}

/// The bytes of a program's words, each from its low byte on.
fn bytes_of(alloc: Global, program: &[u32]) -> Result<Vec<u8>, AllocError> {
    let mut bytes = Vec::new(alloc);
    for word in program {
        bytes.extend_from_slice(&word.to_le_bytes())?;
    }
    Ok(bytes)
}

/// A call over a host that holds these files, fails so, and has so much space for output: its status, and what it writes.
fn called<R: Threads + Wait + Sync + AllocGlobal>(
    rt: &R,
    words: &str,
    files: Vec<(String, Vec<u8>)>,
    failing: &[Failing],
    space: u32,
) -> Result<(u8, Vec<u8>), AllocError> {
    let alloc = rt.alloc();
    let words = owned(alloc, words)?;
    let mut host = MemoryHost::new(alloc, files, failing.to_vec(alloc)?, space)?;
    let status = llsc(rt, alloc, words.as_slice(), &mut host).status;
    let written = host.written().to_vec(alloc)?;
    Ok((status, written))
}
