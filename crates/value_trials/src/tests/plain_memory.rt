//! Accesses of two threads, and what plain memory makes of them.
ghost use Rattle.std.specs.Prelude.{◌≡◌, ◌<◌, ◌^◌, IsTrue, length};
ghost use Rattle.llsc_base.specs.Memory.{size_bytes};
ghost use Rattle.history.specs.Monitor.{IsAsLarge};

use history::{Access, Deed, PlainMemory};
use llsc_base::{MachineSize, Place, Size};
use std::alloc::Global;
use std::test::Fail;

/// Whether a value has no more bytes than a size.
pub(super) fn fits(value: u64, size: Size) -> bool
    ensures { IsTrue result → value < 256 ^ size_bytes size }
{
    match size {
        Size::B1 => value < 0x100,
        Size::B2 => value < 0x1_0000,
        Size::B4 => value < 0x1_0000_0000,
        Size::B8 => true,
    }
}

/// Makes an access, and says whether it answers as the record has it.
fn answers(memory: &mut PlainMemory, access: Access) -> bool
    requires bytes { length memory.old.memory ≡ 65536 }
    requires threads { length memory.old.marks ≡ 2 }
    ensures size { IsAsLarge memory.old memory.new }
{
    let (t, place, value) = (access.thread, access.place, access.value);
    let inside = place.addr < 65_536 && place.addr + place.size.bytes() <= 65_536;
    if t >= 2 || !place.is_aligned() || !inside || !fits(value, place.size) {
        return false;
    }
    memory.make(tried(access)) == access
}

/// The access as it is tried: a store-exclusive isn't told beforehand whether it will fail.
fn tried(access: Access) -> Access
    ensures same { (result.thread ≡ access.thread) × ((result.place ≡ access.place) × (result.value ≡ access.value)) }
{
    match access.deed {
        Deed::StoreFail => Access {
            deed: Deed::StoreEx,
            ..access
        },
        _ => access,
    }
}

/// Whether the accesses answer as they are recorded, one after the other, in memory that begins as zeros, with rows of this
/// granule.
fn all_answer_on(alloc: Global, granule: u64, accesses: &[Access]) -> Result<bool, Fail> {
    let size = MachineSize::new(65_536, 2, 4096, 1)?.with_granule(granule)?;
    let bytes = vec![in alloc; 0; 65_536]?;
    let mut memory = PlainMemory::sized(alloc, bytes.as_slice(), &size)?;
    for access in accesses {
        if !answers(&mut memory, *access) {
            return Ok(false);
        }
    }
    Ok(true)
}

fn access(thread: u32, deed: Deed, addr: u32, size: Size, value: u64) -> Access {
    Access {
        thread,
        deed,
        place: Place { addr, size },
        value,
    }
}

#[test]
fn answers_each_kind_of_access(rt: HostRuntime) -> Result<(), Fail> {
    let halves_of_a_doubleword = [
        access(0, Deed::LoadEx, 0x2000, Size::B8, 0),
        access(1, Deed::Store, 0x2006, Size::B2, 0xbeef),
        access(0, Deed::StoreFail, 0x2000, Size::B8, 1),
        access(0, Deed::Load, 0x2000, Size::B8, 0xbeef_0000_0000_0000),
        access(0, Deed::Load, 0x2004, Size::B4, 0xbeef_0000),
        access(0, Deed::LoadEx, 0x2000, Size::B8, 0xbeef_0000_0000_0000),
        access(0, Deed::StoreEx, 0x2000, Size::B8, 1),
        access(0, Deed::LoadEx, 0x2000, Size::B4, 1),
        access(0, Deed::Clear, 0, Size::B1, 0),
        access(0, Deed::StoreFail, 0x2000, Size::B4, 9),
    ];
    assert!(rt; all_answer_on(rt.alloc(), 0, &halves_of_a_doubleword)?);
    let last_byte_of_a_wide_row = [
        access(0, Deed::LoadEx, 0x2000, Size::B4, 0),
        access(1, Deed::Store, 0x2800, Size::B1, 1),
        access(0, Deed::StoreEx, 0x2000, Size::B4, 9),
        access(0, Deed::LoadEx, 0x2000, Size::B4, 9),
        access(1, Deed::Store, 0x27ff, Size::B1, 1),
        access(0, Deed::StoreFail, 0x2000, Size::B4, 9),
    ];
    assert!(rt; all_answer_on(rt.alloc(), 8, &last_byte_of_a_wide_row)?);
    Ok(())
}
