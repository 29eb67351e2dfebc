//! Makes so many accesses to a shared memory on one thread, for the script `bench` beside it, which counts what they cost.
#![tactic(auto)]

mod accesses;

use crate::accesses::{Kind, alone, kind_of, make};
use std::{env, io, str};

fn main(rt: HostRuntime) -> io::Result<()> {
    let (memory, mut pass) = alone(rt.alloc())?;
    let mut kind = Kind::Pairs;
    for word in env::args(&rt)?.skip(1) {
        if let Some(named) = kind_of(word.as_str()) {
            kind = named;
            continue;
        }
        let rounds = word.as_str().parse::<u32>().unwrap_or(0);
        let sum = make(&rt, &memory, &mut pass, kind, rounds);
        println!(rt; "{rounds} {sum}")?;
    }
    Ok(())
}
