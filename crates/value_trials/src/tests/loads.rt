//! Numbers in memory.
use llsc_base::{Place, Size, load};

/// Nine bytes of memory.
const MEMORY: [u8; 9] = [0, 0x11, 0x22, 0x33, 0x44, 0x55, 0x66, 0x77, 0x88];

/// Sizes with the number of each at address 1.
const CASES: [(Size, u64); 4] = [
    (Size::B1, 0x11),
    (Size::B2, 0x2211),
    (Size::B4, 0x4433_2211),
    (Size::B8, 0x8877_6655_4433_2211),
];

/// Whether the number of a size at address 1 is this one.
fn is_loaded(size: Size, value: u64) -> bool {
    load(&MEMORY, Place { addr: 1, size }) == value
}

#[test]
fn loads_of_each_size(rt: HostRuntime) {
    for &(size, value) in &CASES {
        assert!(rt; is_loaded(size, value), "of {value}");
    }
}
