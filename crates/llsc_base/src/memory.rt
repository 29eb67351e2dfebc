//! Loads of places in memory, as slices of bytes.
ghost use Rattle.std.specs.Prelude.{◌≡◌, ◌+◌, ◌^◌, ◌<◌, ◌≤◌, ◌++◌, length, take, drop};
ghost use Rattle.llsc_base.specs.Memory.{number_of, size_bytes, value_at};

use crate::access::{Place, Size};

/// The number at a place of memory, its least significant byte first: below 2 to the 8, 16, 32 or 64 by the
/// place's size. The place lies in the slice, and needn't be aligned.
#[inline]
#[tactic(auto, using(crate::proofs::Bytes::byte_rules))]
pub fn load(memory: &[u8], place: Place) -> u64
    requires inside { place.addr + size_bytes place.size ≤ length memory.now }
    ensures value { result ≡ value_at memory.now place }
    ensures fits { result < 256 ^ size_bytes place.size }
{
    let at = place.addr as usize;
    match place.size {
        Size::B1 => u64::from(memory[at]),
        Size::B2 => u64::from(load_2(memory, at)),
        Size::B4 => u64::from(load_4(memory, at)),
        Size::B8 => load_8(memory, at),
    }
}

/// Sets the bytes from an index on.
#[inline]
pub(crate) fn put(memory: &mut [u8], at: usize, bytes: &[u8])
    requires { at + length bytes.now ≤ length memory.old }
    ensures { memory.new ≡ take at memory.old ++ bytes.now ++ drop (at + length bytes.now) memory.old }
{
    memory[at..at + bytes.len()].copy_from_slice(bytes);
}

/// The number of two bytes.
#[inline]
#[tactic(auto, using(crate::proofs::Bytes::byte_rules))]
fn load_2(memory: &[u8], at: usize) -> u16
    requires { at + 2 ≤ length memory.now }
    ensures { result ≡ number_of (take 2 (drop at memory.now)) }
{
    u16::from_le_bytes([memory[at], memory[at + 1]])
}

/// The number of four bytes.
#[inline]
#[tactic(auto, using(crate::proofs::Bytes::byte_rules))]
pub(crate) fn load_4(memory: &[u8], at: usize) -> u32
    requires { at + 4 ≤ length memory.now }
    ensures { result ≡ number_of (take 4 (drop at memory.now)) }
{
    u32::from_le_bytes([memory[at], memory[at + 1], memory[at + 2], memory[at + 3]])
}

/// The number of eight bytes.
#[inline]
#[tactic(auto, using(crate::proofs::Bytes::byte_rules))]
fn load_8(memory: &[u8], at: usize) -> u64
    requires { at + 8 ≤ length memory.now }
    ensures { result ≡ number_of (take 8 (drop at memory.now)) }
{
    u64::from_le_bytes([
        memory[at],
        memory[at + 1],
        memory[at + 2],
        memory[at + 3],
        memory[at + 4],
        memory[at + 5],
        memory[at + 6],
        memory[at + 7],
    ])
}
