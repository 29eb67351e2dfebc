//! A whole guest, against what `qemu-riscv32` printed for it.
use super::programs::image_of;
use guest_calls::{CallStep, Output};
use llsc_base::{Ask, Image, MachineSize, Place};
use rv32_guest::{RvCpu, Wanted, rv_call};
use std::alloc::Global;
use std::test::Fail;

/// How many bytes of memory there are.
const MEM: u32 = 262_144;

/// It fills twelve words, sorts them, adds them up by halves and bytes, counts by LR.W and SC.W, and prints eight digits.
const GUEST: [u32; 75] = [
    0x00020437, 0x00c00293, 0x00040313, 0x012343b7, 0x56738393, 0x00732023, 0x00539e13, 0x01c3c3b3,
    0x4073de13, 0x407e03b3, 0x00430313, 0xfff28293, 0xfe0292e3, 0x00b00493, 0x00040313, 0x00048293,
    0x00032383, 0x00432e03, 0x007e5663, 0x01c32023, 0x00732223, 0x00430313, 0xfff28293, 0xfe0292e3,
    0xfff48493, 0xfc049ae3, 0x00000793, 0x00c00293, 0x00040313, 0x00231383, 0x00134e03, 0x00030e83,
    0x01c393b3, 0x0077bf33, 0x0077c7b3, 0x01d787b3, 0x01e787b3, 0x00430313, 0xfff28293, 0xfc029ce3,
    0x06400293, 0x10040913, 0x1009232f, 0x00530333, 0x186923af, 0xfe039ae3, 0xfff28293, 0xfe0296e3,
    0x00092303, 0x0067c7b3, 0x0ff0000f, 0x010000ef, 0x00000513, 0x05d00893, 0x00000073, 0x20040293,
    0x01c00313, 0x0067d3b3, 0x00f3f393, 0x00a3be13, 0x03038393, 0x000e1463, 0x02738393, 0x00728023,
    0x00128293, 0xffc30313, 0xfc035ee3, 0x00a00393, 0x00728023, 0x00100513, 0x20040593, 0x00900613,
    0x04000893, 0x00000073, 0x00008067,
];

/// The bytes of a guest's memory.
#[derive(Drop)]
struct Memory {
    bytes: Vec<u8>,
}

impl Memory {
    /// Memory that is all 0.
    fn new(alloc: Global) -> Result<Memory, Fail> {
        let mut bytes = Vec::new(alloc);
        for _ in 0..MEM {
            bytes.push(0)?;
        }
        Ok(Memory { bytes })
    }

    fn byte(&self, addr: usize) -> Result<u8, Fail> {
        Ok(*self.bytes.get(addr).ok_or("past memory")?)
    }

    /// The value of a place.
    fn load(&self, place: Place) -> Result<u64, Fail> {
        let mut value = [0; 8];
        for i in 0..place.size.bytes() as usize {
            *value.get_mut(i).ok_or("a wide access")? = self.byte(place.addr as usize + i)?;
        }
        Ok(u64::from_le_bytes(value))
    }

    fn store(&mut self, place: Place, value: u64) -> Result<(), Fail> {
        let value = value.to_le_bytes();
        for i in 0..place.size.bytes() as usize {
            *self
                .bytes
                .get_mut(place.addr as usize + i)
                .ok_or("past memory")? = *value.get(i).ok_or("a wide access")?;
        }
        Ok(())
    }

    /// The reply to an access; nobody else writes, so that a store-conditional always stores.
    fn reply(&mut self, ask: Ask) -> Result<u64, Fail> {
        match ask {
            Ask::Load(place) | Ask::LoadEx(place) => self.load(place),
            Ask::Store(place, value) | Ask::StoreEx(place, value) => {
                self.store(place, value)?;
                Ok(0)
            }
            Ask::Clear => Ok(0),
        }
    }

    /// So many bytes from an address up go to the output.
    fn print(&self, from: u32, len: u32, out: &mut Output) -> Result<(), Fail> {
        for i in 0..len {
            if out.room_left() == 0 {
                return Err("no room")?;
            }
            out.push(self.byte(from as usize + i as usize)?);
        }
        Ok(())
    }
}

/// What a guest prints until it leaves with code 0.
fn printed(alloc: Global, image: &Image, memory: &mut Memory) -> Result<Output, Fail> {
    let mut cpu = RvCpu::start(image.entry(), 0, 1, 0);
    let mut out = Output::new(alloc)?;
    for _ in 0..100_000u32 {
        match cpu.next(image) {
            Wanted::Done => {}
            Wanted::Access(ask) => cpu.give(memory.reply(ask)?),
            Wanted::Call(call) => match rv_call(&mut cpu, &call, MEM, &mut out) {
                CallStep::Exit(0) => return Ok(out),
                CallStep::Exit(_) => return Err("another code")?,
                CallStep::Answered => {}
                CallStep::Bytes { from, len } => {
                    memory.print(from, len, &mut out)?;
                    cpu.answer(len);
                }
            },
            Wanted::Stopped(_) => return Err("a stop")?,
        }
    }
    Err("no end")?
}

#[test]
fn a_guest_of_qemu(rt: HostRuntime) -> Result<(), Fail> {
    let alloc = rt.alloc();
    let size = MachineSize::new(u64::from(MEM), 1, 1, 1)?;
    let image = image_of(alloc, &GUEST, &size)?;
    let mut memory = Memory::new(alloc)?;
    let out = printed(alloc, &image, &mut memory)?;
    assert_eq!(rt; out.bytes(), b"e944ba82\n".as_slice());
    Ok(())
}
