//! The numbers of a machine.
use super::same;
use llsc_base::{MachineSize, SizeFault};
use std::test::Fail;

/// The bytes of memory, the threads, the classes and the limit, with the first that is out of its range.
const CASES: [(u64, u64, u64, u64, Option<SizeFault>); 6] = [
    (65_536, 16, 1, 1, None),
    (16_777_216, 1, 4096, 4_611_686_018_427_387_904, None),
    (65_537, 0, 3, 0, Some(SizeFault::Mem)),
    (65_536, 0, 3, 0, Some(SizeFault::Threads)),
    (65_536, 1, 3, 0, Some(SizeFault::Classes)),
    (65_536, 1, 1, 0, Some(SizeFault::Limit)),
];

#[test]
fn ranges(rt: HostRuntime) {
    for &(mem, threads, classes, limit, fault) in &CASES {
        let found = MachineSize::new(mem, threads, classes, limit).err();
        assert!(rt; found == fault, "at {mem}");
    }
}

#[test]
fn numbers(rt: HostRuntime) -> Result<(), Fail> {
    let size = MachineSize::new(1_048_576, 2, 4096, 7)?;
    let found = [size.mem(), size.threads(), size.classes(), size.room()];
    same(&rt, found, [1_048_576, 2, 4096, 1_040_384]);
    same(&rt, size.limit(), 7);
    same(&rt, SizeFault::Classes.name(), "Classes");
    Ok(())
}
