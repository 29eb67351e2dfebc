//! An ELF file that is loaded.
use super::same;
use elf32::{ElfFault, load, load_as};
use llsc_base::{Bar, Image, MachineSize, Place, Size, SizeFault};
use std::alloc::{AllocError, Global};
use std::test::Fail;

/// How many bytes the file below has.
const LEN: usize = 212;

/// The file's header behind its identification: its kind 2 and its machine 40, the version, the entry, the places of both tables
/// of headers, the flags, and the sizes and counts of the headers, two to a word: 52 and 32, 4 and 40, 0 and 0.
const HEADER: [u32; 9] = [
    0x0028_0002,
    1,
    0x1_00b4,
    52,
    0,
    0x0500_0200,
    0x0020_0034,
    0x0028_0004,
    0,
];

/// A file as the GNU linker lays it out: an exception table, code, data with eight bytes behind it that
/// are in memory alone, and the stack's flags.
const HEADERS: [[u32; 8]; 4] = [
    [0x7000_0001, 0, 0, 0, 0, 0, 4, 4],
    [1, 0, 0x1_0000, 0x1_0000, 0xd0, 0xd0, 5, 0x1_0000],
    [1, 0xd0, 0x2_00d0, 0x2_00d0, 4, 12, 6, 0x1_0000],
    [0x6474_e551, 0, 0, 0, 0, 0, 6, 16],
];

/// The code, which adds two words of the data and exits with the sum, and the data's first word.
const CONTENTS: [u32; 8] = [
    0xe300_10d0,
    0xe340_1002,
    0xe591_2000,
    0xe591_0004,
    0xe080_0002,
    0xe3a0_7001,
    0xef00_0000,
    3,
];

/// The machine that files are loaded for.
fn size() -> Result<MachineSize, SizeFault> {
    MachineSize::new(1_048_576, 1, 4096, 1 << 62)
}

fn push_words(file: &mut Vec<u8>, words: &[u32]) -> Result<(), AllocError> {
    for word in words {
        file.extend_from_slice(&word.to_le_bytes())?;
    }
    Ok(())
}

fn linked(alloc: Global) -> Result<Vec<u8>, AllocError> {
    let mut file = Vec::new(alloc);
    file.extend_from_slice(&[0x7f, b'E', b'L', b'F', 1, 1, 1, 0, 0, 0, 0, 0, 0, 0, 0, 0])?;
    push_words(&mut file, &HEADER)?;
    for header in &HEADERS {
        push_words(&mut file, header)?;
    }
    push_words(&mut file, &CONTENTS)?;
    Ok(file)
}

/// The same file for RISC-V, with its attributes (PT_RISCV_ATTRIBUTES) in place of the exception table.
fn linked_for_riscv(alloc: Global) -> Result<Vec<u8>, Fail> {
    let mut file = linked(alloc)?;
    *file.get_mut(18).ok_or("there is no machine")? = 243;
    *file.get_mut(52).ok_or("there is no type")? = 3;
    Ok(file)
}

/// Numbers of processors, with the fault of the file for Arm and that of the one for RISC-V.
const PROCESSORS: [(u32, Option<ElfFault>, Option<ElfFault>); 4] = [
    (0, Some(ElfFault::Machine), Some(ElfFault::Machine)),
    (40, None, Some(ElfFault::Machine)),
    (243, Some(ElfFault::Machine), None),
    (65_779, Some(ElfFault::Machine), Some(ElfFault::Machine)),
];

/// Addresses with the words that may be run there.
const WORDS: [(u32, Option<u32>); 6] = [
    (0x1_0000, Some(0x464c_457f)),
    (0x1_00b4, Some(0xe300_10d0)),
    (0x1_00cc, Some(0xef00_0000)),
    (0x1_00d0, None),
    (0xfffc, None),
    (0x2_00d0, None),
];

/// Addresses with the bytes that stand there.
const BYTES: [(u32, u8); 4] = [(0x1_00d0, 0), (0x2_00cf, 0), (0x2_00d0, 3), (0x2_00d4, 0)];

/// Addresses with what stands against a store of a word there.
const BARS: [(u32, Option<Bar>); 3] = [
    (0x1_0000, Some(Bar::ReadOnly)),
    (0x1_00d0, None),
    (0x2_00d8, None),
];

/// Whether what may be run at an address is this word.
fn is_word(image: &Image, addr: u32, word: Option<u32>) -> bool {
    addr % 4 == 0 && image.fetch(addr) == word
}

/// Whether this byte stands at an address.
fn is_byte(image: &Image, addr: u32, byte: u8) -> bool {
    (addr as usize) < image.bytes().len() && image.byte(addr) == byte
}

/// Whether this stands against a store of a word at an address.
fn is_barred(image: &Image, addr: u32, bar: Option<Bar>) -> bool {
    let place = Place {
        addr,
        size: Size::B4,
    };
    image.test(place, true) == bar
}

#[test]
fn a_linked_file(rt: HostRuntime) -> Result<(), Fail> {
    let file = linked(rt.alloc())?;
    same(&rt, file.len(), LEN);
    let image = load(rt.alloc(), &file, &size()?)?;
    same(&rt, image.entry(), 0x1_00b4);
    same(&rt, image.bytes().len(), 1_048_576);
    for &(addr, word) in &WORDS {
        assert!(rt; is_word(&image, addr, word), "at {addr}");
    }
    for &(addr, byte) in &BYTES {
        assert!(rt; is_byte(&image, addr, byte), "at {addr}");
    }
    for &(addr, bar) in &BARS {
        assert!(rt; is_barred(&image, addr, bar), "at {addr}");
    }
    Ok(())
}

#[test]
fn files_for_a_processor(rt: HostRuntime) -> Result<(), Fail> {
    let arm = linked(rt.alloc())?;
    let riscv = linked_for_riscv(rt.alloc())?;
    let size = size()?;
    for &(number, of_arm, of_riscv) in &PROCESSORS {
        same(&rt, load_as(rt.alloc(), &arm, &size, number).err(), of_arm);
        same(
            &rt,
            load_as(rt.alloc(), &riscv, &size, number).err(),
            of_riscv,
        );
    }
    same(
        &rt,
        load(rt.alloc(), &riscv, &size).err(),
        Some(ElfFault::Machine),
    );
    let image = load_as(rt.alloc(), &riscv, &size, 243)?;
    same(&rt, image.entry(), 0x1_00b4);
    Ok(())
}
