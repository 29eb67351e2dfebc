//! Addresses: of loads and stores, and of branches.
ghost use Rattle.std.specs.Prelude.{◌≡◌, ◌%◌, ◌^◌, ◌<◌};
ghost use Rattle.llsc_base.specs.Memory.{size_bytes};
ghost use Rattle.a32_instr.specs.LoadStore.{moved, is_added, accessed_address, half_size, part_of};
ghost use Rattle.a32_instr.specs.Branch.{target_of};

use a32_instr::{HalfKind, Index, Offset};
use llsc_base::Size;

/// An address moved up or down (DDI 0406C A8.5).
pub fn moved(base: u32, add: bool, distance: u32) -> u32
    ensures { result ≡ moved base add distance }
{
    if add {
        base.wrapping_add(distance)
    } else {
        base.wrapping_sub(distance)
    }
}

/// Whether an offset is added or taken away.
pub fn is_added(offset: &Offset) -> bool
    ensures { result ≡ is_added offset.now }
{
    match *offset {
        Offset::Imm { add, .. } => add,
        Offset::Shifted { add, .. } => add,
    }
}

/// The address that is accessed: the moved one, or with a post index the base.
pub fn accessed_address(index: Index, base: u32, moved: u32) -> u32
    ensures { result ≡ accessed_address index base moved }
{
    match index {
        Index::Plain | Index::Pre => moved,
        Index::Post => base,
    }
}

/// The size of a halfword's access, or of a signed byte's.
pub fn size_of_half(kind: HalfKind) -> Size
    ensures { result ≡ half_size kind }
{
    match kind {
        HalfKind::Strh | HalfKind::Ldrh | HalfKind::Ldrsh => Size::B2,
        HalfKind::Ldrsb => Size::B1,
    }
}

/// What of a register a byte's store has, or a word's.
pub fn part_stored(byte: bool, value: u32) -> u64
    ensures part { result ≡ part_of byte value }
{
    if byte {
        u64::from(value & 0xff)
    } else {
        u64::from(value)
    }
}

/// What of a register a halfword's store has.
pub fn half_stored(value: u32) -> u64
    ensures { result ≡ value % 2 ^ 16 }
{
    u64::from(value & 0xffff)
}

/// The target of a branch by so many words from two words after the instruction.
#[tactic(auto, unfolding(a32_instr::specs::Branch::target_of))]
pub fn branch_target(pc: u32, words: i32) -> u32
    ensures target { result ≡ target_of pc words }
    ensures aligned { pc % 4 ≡ 0 → result % 4 ≡ 0 }
{
    let target = i64::from(pc) + 8 + 4 * i64::from(words);
    target.rem_euclid(1 << 32) as u32
}
