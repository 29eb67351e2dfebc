//! Runs of small programs.
ghost use Rattle.std.specs.Prelude.{◌≤◌};

use super::programs::image_of;
use a32_step::Cpu;
use guest_machine::solo;
use llsc_base::{MachineSize, Stop};
use std::alloc::Global;
use std::test::Fail;

/// Adds 7 at 0x2000 by a load-exclusive and a store-exclusive, stores there once more by another that fails, writes the
/// byte, and leaves with 5.
const COUNTS: &[u32] = &[
    0xe3a0_1a02,
    0xe191_0f9f,
    0xe280_0007,
    0xe181_2f90,
    0xe181_3f90,
    0xe3a0_0001,
    0xe3a0_2001,
    0xe3a0_7004,
    0xef00_0000,
    0xe3a0_0005,
    0xe3a0_7001,
    0xef00_0000,
];

/// Whether the program ends so by a budget: its stop, its steps, its reads, and its output. It writes once, and fails once.
fn ends_so(alloc: Global, budget: u64, wanted: (Stop, u64, u64, &[u8])) -> Result<bool, Fail>
    requires some { 1 ≤ budget }
    requires most { budget ≤ 1000000000000 }
{
    let size = MachineSize::new(65_536, 1, 1, 1)?;
    let image = image_of(alloc, COUNTS, &size)?;
    let end = solo::<Cpu>(alloc, &image, &size, budget)?;
    let counts = (end.thread, end.writes, end.fails);
    Ok(counts == (0, 1, 1) && (end.stop, end.steps, end.reads, end.out.bytes()) == wanted)
}

#[test]
fn runs_one_thread(rt: HostRuntime) -> Result<(), Fail> {
    assert!(rt; ends_so(rt.alloc(), 100, (Stop::Exit(5), 12, 2, &[7]))?);
    assert!(rt; ends_so(rt.alloc(), 8, (Stop::Budget, 8, 1, &[]))?);
    Ok(())
}
