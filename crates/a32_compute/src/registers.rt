//! Lists of registers, a bit for each (DDI 0406C A5.5).
ghost use Rattle.std.specs.Prelude.{◌≡◌, ◌<◌, ◌≤◌, ◌*◌, slice_index};
ghost use Rattle.a32_instr.specs.Block.{is_listed, registers_of, count_of, lowest_address};
ghost use Rattle.a32_compute.specs.Lists.{AreLeft};

use a32_instr::Reg;

/// Whether a register stands in a list.
#[inline(always)]
pub fn is_listed(list: u16, r: u8) -> bool
    requires { r < 16 }
    ensures { result ≡ is_listed list r }
{
    (list >> r) % 2 == 1
}

/// How many registers a list has.
#[inline]
#[tactic(auto, using(crate::proofs::Lists::count_is, crate::proofs::Lists::ones_most))]
pub fn count_of(list: u16) -> u32
    ensures count { result ≡ count_of list }
    ensures most { result ≤ 16 }
{
    list.count_ones()
}

/// The register of this number in a list, counted from the lowest.
pub fn listed(list: u16, number: usize) -> Reg
    requires { number < count_of list }
    ensures register { result ≡ slice_index (registers_of list) number }
    ensures left { AreLeft list result number }
{
    let mut passed = 0usize;
    for r in 0..16u8 {
        if !is_listed(list, r) {
            continue;
        }
        if passed == number {
            return Reg::new(r);
        }
        passed += 1;
    }
    unreachable!()
}

/// The address of the lowest word of a block.
pub fn lowest_address(up: bool, before: bool, base: u32, bytes: u32) -> u32
    requires { bytes < 128 }
    ensures { result ≡ lowest_address up before base bytes }
{
    if up {
        return if before { base.wrapping_add(4) } else { base };
    }
    let end = base.wrapping_sub(bytes);
    if before { end } else { end.wrapping_add(4) }
}
