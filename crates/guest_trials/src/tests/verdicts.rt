//! Records of programs of a few words, with what is said of them.
ghost use Rattle.std.specs.Prelude.{◌≡◌, IfOk};
ghost use Rattle.run_record.specs.Limits.{IsRecord};

use super::programs::{ADDS, SHARES, WRITES, image_of};
use super::same;
use a32_step::Remembering;
use llsc_base::MachineSize;
use run_checker::{Reason, Verdict, check_record};
use run_record::{RunRecord, read_record};
use std::alloc::Global;
use std::test::Fail;

/// The program that adds, without the load and the sum.
const STORES: &[u32] = &[
    0xe3a0_1a02,
    0xe181_2f90,
    0xe1a0_0002,
    0xe3a0_7001,
    0xef00_0000,
];

/// The program that adds, with a second store-exclusive in place of the sum.
const STORES_TWICE: &[u32] = &[
    0xe3a0_1a02,
    0xe191_0f9f,
    0xe181_2f90,
    0xe181_2f90,
    0xe1a0_0002,
    0xe3a0_7001,
    0xef00_0000,
];

/// Header lines of records, by the number of their accesses: of one thread, of one with 3 steps, and of two.
const ONE: &str = "llsc-run 1 threads 1 budget 10000 accesses 1\n";

const TWO: &str = "llsc-run 1 threads 1 budget 10000 accesses 2\n";

const THREE: &str = "llsc-run 1 threads 1 budget 10000 accesses 3\n";

const ONE_IN_3_STEPS: &str = "llsc-run 1 threads 1 budget 3 accesses 1\n";

const TWO_IN_3_STEPS: &str = "llsc-run 1 threads 1 budget 3 accesses 2\n";

const TWO_BY_BOTH: &str = "llsc-run 1 threads 2 budget 10000 accesses 2\n";

const FOUR_BY_BOTH: &str = "llsc-run 1 threads 2 budget 10000 accesses 4\n";

/// Lines of records.
const LOAD: &str = "0 loadex 4 00002000 0000000000000000\n";

const LOAD_OF_1: &str = "0 loadex 4 00002000 0000000000000001\n";

const LOAD_OF_8: &str = "0 loadex 8 00002000 0000000000000000\n";

const STORE_7: &str = "0 storeex 4 00002000 0000000000000007\n";

const STORE_0: &str = "0 storeex 4 00002000 0000000000000000\n";

const FAIL_7: &str = "0 fail 4 00002000 0000000000000007\n";

const FAIL_0: &str = "0 fail 4 00002000 0000000000000000\n";

const CLEAR: &str = "0 clear\n";

const STORE_BY_0: &str = "0 store 4 00002000 0000000000000000\n";

const STORE_BY_1: &str = "1 store 4 00002000 0000000000000001\n";

const LOAD_BY_0: &str = "0 load 4 00002000 0000000000000000\n";

const LOAD_BY_1: &str = "1 load 4 00002000 0000000000000000\n";

const LOAD_H: &str = "0 load 1 00001020 0000000000000048\n";

const LOAD_I: &str = "0 load 1 00001021 0000000000000069\n";

/// The record of these lines.
fn record_of(alloc: Global, lines: &[&str]) -> Result<RunRecord, Fail>
    ensures { IfOk result IsRecord }
{
    let mut text = Vec::new(alloc);
    for line in lines {
        text.extend_from_slice(line.as_bytes())?;
    }
    Ok(read_record(alloc, text.as_slice())?)
}

/// The machine of a record.
fn machine_of(run: &RunRecord) -> Result<MachineSize, Fail>
    ensures { IfOk result (λ size. (run.now.threads ≡ size.threads) × (run.now.granule ≡ size.granule)) }
{
    let size = MachineSize::new(65_536, u64::from(run.threads), 1, 1)?;
    Ok(size.with_granule(u64::from(run.granule))?)
}

/// What is said of the record of these lines.
fn verdict(alloc: Global, words: &[u32], lines: &[&str]) -> Result<Verdict, Fail> {
    let run = record_of(alloc, lines)?;
    let size = machine_of(&run)?;
    let image = image_of(alloc, words, &size)?;
    Ok(check_record::<Remembering>(alloc, &image, &size, &run)?)
}

/// The verdict that names this access and reason, or none.
fn named(bad: Option<(u32, Reason)>) -> Verdict {
    match bad {
        None => Verdict::Good,
        Some((index, reason)) => Verdict::Bad { index, reason },
    }
}

/// Records of a thread that adds, changed in stated ways: the lines; the access that is wrong, and why.
const CHANGES: &[(&[&str], Option<(u32, Reason)>)] = &[
    (&[TWO, LOAD, STORE_7], None),
    (&[TWO, LOAD, FAIL_7], None),
    (&[TWO, STORE_7, LOAD], Some((0, Reason::NotAsked))),
    (&[ONE, LOAD_OF_8], Some((0, Reason::NotAsked))),
    (&[TWO, LOAD, FAIL_0], Some((1, Reason::NotAsked))),
    (&[TWO, LOAD_OF_1, STORE_7], Some((0, Reason::WrongValue))),
    (&[ONE, LOAD], Some((1, Reason::Unfinished))),
    (&[THREE, LOAD, STORE_7, CLEAR], Some((2, Reason::AfterStop))),
    (&[ONE_IN_3_STEPS, LOAD], None),
    (
        &[TWO_IN_3_STEPS, LOAD, STORE_7],
        Some((1, Reason::AfterStop)),
    ),
];

/// Records of one store-exclusive after another, and of two threads that store and load, thread 1 or 0 first.
const TWICE: &[&str] = &[THREE, LOAD, FAIL_0, STORE_0];

const ONE_FIRST: &[&str] = &[FOUR_BY_BOTH, STORE_BY_1, STORE_BY_0, LOAD_BY_1, LOAD_BY_0];

const ZERO_FIRST: &[&str] = &[FOUR_BY_BOTH, STORE_BY_0, STORE_BY_1, LOAD_BY_1, LOAD_BY_0];

const ZERO_ALONE: &[&str] = &[TWO_BY_BOTH, STORE_BY_0, LOAD_BY_0];

/// Records of other programs, and of two threads: the words and the lines; the access that is wrong, and why.
const PROGRAMS: &[(&[u32], &[&str], Option<(u32, Reason)>)] = &[
    (STORES, &[ONE, STORE_0], Some((0, Reason::NoReservation))),
    (STORES, &[ONE, FAIL_0], None),
    (STORES_TWICE, TWICE, Some((2, Reason::NoReservation))),
    (SHARES, ONE_FIRST, None),
    (SHARES, ZERO_FIRST, Some((2, Reason::WrongValue))),
    (SHARES, ZERO_ALONE, Some((2, Reason::Unfinished))),
    (WRITES, &[TWO, LOAD_H, LOAD_I], None),
];

#[test]
fn judges_changes(rt: HostRuntime) -> Result<(), Fail> {
    for (lines, bad) in CHANGES {
        same(&rt, verdict(rt.alloc(), ADDS, lines)?, named(*bad));
    }
    Ok(())
}

#[test]
fn judges_programs(rt: HostRuntime) -> Result<(), Fail> {
    for (words, lines, bad) in PROGRAMS {
        same(&rt, verdict(rt.alloc(), words, lines)?, named(*bad));
    }
    Ok(())
}

#[test]
fn names_reasons(rt: HostRuntime) {
    same(&rt, Reason::NoReservation.name(), "NoReservation");
}
