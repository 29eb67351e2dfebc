//! The crates as a library, by hand: a memory that two threads share, and a guest over a device.
#![tactic(auto)]

mod clock;
mod counting;

use crate::clock::three_reads;
use crate::counting::count;
use llsc_base::Stop;
use std::io;

fn main(rt: HostRuntime) -> io::Result<()> {
    let word = count(&rt, rt.alloc())?;
    println!(rt; "two threads have added 1 a thousand times each: {word}")?;
    match three_reads(rt.alloc()) {
        Ok(Stop::Exit(code)) => println!(rt;
            "a guest has read a clock three times, and left with code {code}"
        ),
        Ok(stop) => println!(rt; "a guest has stopped: {stop:?}"),
        Err(fault) => println!(rt; "no guest has run: {}", fault.name()),
    }
}
