//! Bytes in a cell of memory.
//!
//! Memory is kept as cells: eight aligned bytes as one number, their first byte the least significant. The crate's name says
//! row for a cell; everywhere else a row is what a reservation is held on, of one cell or of more by the granule. [`take`] is
//! the value of a place in its cell, and [`put`] is the cell with that value set. Both are defined on the cell's eight bytes,
//! as loads and stores of bytes are (DDI 0406C A3.3, little-endian).
#![tactic(auto)]

pub mod laws;

ghost use Rattle.std.specs.Prelude.{◌≡◌, ◌*◌, ◌/◌, ◌%◌, ◌-◌, ◌^◌, ◌<◌, ◌≤◌, IsTrue, length, take};
ghost use Rattle.llsc_base.specs.Memory.{is_aligned, number_of, size_bytes};
ghost use Rattle.row_bytes.specs.Cell.{cell_with, value_in_cell};

use llsc_base::{Place, Size};

/// The value of an aligned place, its least significant byte first, from the cell in which it lies: below 2 to the 8,
/// 16, 32 or 64 by the place's size. It is no `take` of a list, which contracts know by the same name.
#[inline(always)]
pub fn take(cell: u64, place: Place) -> u64
    requires aligned { IsTrue (is_aligned place) }
    ensures value { result ≡ value_in_cell cell place }
    ensures fits { result < 256 ^ size_bytes place.size }
{
    (cell >> shift(place)) & mask(place.size)
}

/// The cell with the bytes of an aligned place set to a value, its least significant byte first, and all others kept.
/// The value is below 2 to the 8, 16, 32 or 64 by the place's size.
#[inline(always)]
pub fn put(cell: u64, place: Place, value: u64) -> u64
    requires aligned { IsTrue (is_aligned place) }
    requires fits { value < 256 ^ size_bytes place.size }
    ensures { result ≡ cell_with cell place value }
{
    let shift = shift(place);
    // The place's bits go out and others come in: nothing is borrowed or carried past them.
    cell - (take(cell, place) << shift) + (value << shift)
}

/// The cell of the first eight bytes.
pub fn first_cell(bytes: &[u8]) -> u64
    requires { 8 ≤ length bytes.now }
    ensures { result ≡ number_of (take 8 bytes.now) }
{
    let place = Place {
        addr: 0,
        size: Size::B8,
    };
    llsc_base::load(bytes, place)
}

/// How many bits of a cell lie below a place.
#[inline]
fn shift(place: Place) -> u32
    ensures { result ≡ 8 * (place.addr % 8) }
{
    8 * (place.addr % 8)
}

/// As many bits as a size has, all set.
#[inline]
fn mask(size: Size) -> u64
    ensures { result ≡ 2 ^ (8 * size_bytes size) - 1 }
{
    match size {
        Size::B1 => 0xff,
        Size::B2 => 0xffff,
        Size::B4 => 0xffff_ffff,
        Size::B8 => u64::MAX,
    }
}
