//! Bytes in a cell of memory.
use super::plain_memory::fits;
use llsc_base::{Place, Size};
use row_bytes::{put, take};

/// A cell.
const CELL: u64 = 0x8877_6655_4433_2211;

/// A place, its value in the cell, a value, and the cell with it.
const CASES: [(u32, Size, u64, u64, u64); 7] = [
    (0x2000, Size::B1, 0x11, 0xab, 0x8877_6655_4433_22ab),
    (0x2007, Size::B1, 0x88, 0xab, 0xab77_6655_4433_2211),
    (0x2002, Size::B2, 0x4433, 0xabcd, 0x8877_6655_abcd_2211),
    (0x2006, Size::B2, 0x8877, 0xbeef, 0xbeef_6655_4433_2211),
    (0x2004, Size::B4, 0x8877_6655, 0, 0x4433_2211),
    (
        0x2000,
        Size::B4,
        0x4433_2211,
        0xffff_ffff,
        0x8877_6655_ffff_ffff,
    ),
    (0x2008, Size::B8, 0x8877_6655_4433_2211, 1, 1),
];

/// Whether the value of a place is this one.
fn is_taken(place: Place, was: u64) -> bool {
    place.is_aligned() && take(CELL, place) == was
}

/// Whether the cell with a value set at a place is this one.
fn is_put(place: Place, value: u64, set: u64) -> bool {
    place.is_aligned() && fits(value, place.size) && put(CELL, place, value) == set
}

#[test]
fn bytes_of_a_cell(rt: HostRuntime) {
    for &(addr, size, was, value, set) in &CASES {
        let place = Place { addr, size };
        assert!(rt; is_taken(place, was), "at {addr}");
        assert!(rt; is_put(place, value, set), "at {addr}");
    }
}
