//! Which place an access names.
ghost use Rattle.std.specs.Prelude.{◌≡◌, ◌+◌, ◌^◌, ◌≤◌, nat_lt, IfOk, IsTrue, MatchResult, Some, None};
ghost use Rattle.llsc_base.specs.Memory.{is_aligned, size_bytes};
ghost use Rattle.memory_handle.specs.Accesses.{IsPlaceOf};
ghost use Rattle.memory_handle.specs.Faults.{place_fault};

use crate::misuse::Misuse;
use llsc_base::{Place, Size};

/// The place of so many bytes from an address up, in a memory of so many bytes, 65,536 at least.
#[inline]
pub fn place_in(mem: u32, addr: u64, width: u32) -> Result<Place, Misuse>
    requires { 65536 ≤ mem }
    ensures place { IfOk result (λ place. IsPlaceOf addr width place) }
    ensures aligned { IfOk result (λ place. IsTrue (is_aligned place)) }
    ensures inside { IfOk result (λ place. place.addr + size_bytes place.size ≤ mem) }
    ensures fault { MatchResult result (λ _. place_fault mem addr width ≡ None) (λ misuse. place_fault mem addr width ≡ Some misuse) }
{
    let size = match width {
        1 => Size::B1,
        2 => Size::B2,
        4 => Size::B4,
        8 => Size::B8,
        _ => return Err(Misuse::Width),
    };
    if addr > u64::from(mem - size.bytes()) {
        return Err(Misuse::Outside);
    }
    let place = Place {
        addr: addr as u32,
        size,
    };
    if !place.is_aligned() {
        return Err(Misuse::Alignment);
    }
    Ok(place)
}

/// Whether a value has no more bytes than a place.
#[inline]
pub fn fits(place: Place, value: u64) -> bool
    ensures { result ≡ nat_lt value (256 ^ size_bytes place.size) }
{
    match place.size {
        Size::B1 => value < 1 << 8,
        Size::B2 => value < 1 << 16,
        Size::B4 => value < 1 << 32,
        Size::B8 => true,
    }
}
