//! Runs guests of A32 or of RISC-V instructions: reads words and files, and writes a text and a status.
//!
//! The program is the one call [`llsc`] (`llsc_call`) on the words that it was started with, over the operating system's files
//! and its standard output (`RealHost` of `llsc_host`).
#![tactic(auto)]

use llsc_call::llsc;
use llsc_host::RealHost;
use std::env;
use std::io::ErrorKind;
use std::process::ExitCode;
use std::rt::Env;

/// Why the words of the call could not be had.
#[derive(Drop)]
enum WordsFault {
    /// One of them is no text, so they ask for nothing that there is.
    NotText,
    /// Want of memory.
    Memory,
}

fn main(rt: HostRuntime) -> ExitCode {
    let mut host = RealHost::new(rt.alloc(), &rt);
    let status = match words_of(&rt) {
        Ok(words) => llsc(&rt, rt.alloc(), words.as_slice(), &mut host).status,
        Err(WordsFault::NotText) => llsc(&rt, rt.alloc(), &[], &mut host).status,
        Err(WordsFault::Memory) => 6,
    };
    ExitCode::from(status)
}

/// The words of the call, without the program's name.
fn words_of<R: Env + AllocGlobal>(rt: &R) -> Result<Vec<String>, WordsFault> {
    let words = env::args(rt).map_err(|error| match error.kind() {
        ErrorKind::OutOfMemory => WordsFault::Memory,
        _ => WordsFault::NotText,
    })?;
    words
        .skip(1)
        .collect(rt.alloc())
        .map_err(|_| WordsFault::Memory)
}
