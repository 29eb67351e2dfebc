//! The image of a flat file.
use super::same;
use llsc_base::{Bar, BarredWord, Image, MachineSize, Place, Size};
use std::alloc::Global;
use std::test::Fail;

/// Three words: mov r0, #0; mov r7, #1; svc #0.
const EXIT: [u8; 12] = [0, 0, 0xa0, 0xe3, 1, 0x70, 0xa0, 0xe3, 0, 0, 0, 0xef];

fn image(alloc: Global) -> Result<Image, Fail> {
    let size = MachineSize::new(1_048_576, 1, 4096, 1 << 62)?;
    Ok(Image::flat(alloc, &EXIT, &size)?)
}

/// Addresses with the words that may be run there.
const WORDS: [(u32, Option<u32>); 4] = [
    (0x1000, Some(0xe3a0_0000)),
    (0x1008, Some(0xef00_0000)),
    (0x100c, None),
    (0, None),
];

/// Whether what may be run at an address is this word.
fn is_word(image: &Image, addr: u32, word: Option<u32>) -> bool {
    addr % 4 == 0 && image.fetch(addr) == word
}

#[test]
fn words(rt: HostRuntime) -> Result<(), Fail> {
    let image = image(rt.alloc())?;
    assert!(rt; image.bytes().len() == 1_048_576);
    same(&rt, image.entry(), 0x1000);
    for &(addr, word) in &WORDS {
        assert!(rt; is_word(&image, addr, word), "at {addr}");
    }
    same(&rt, image.byte(0x1003), 0xe3);
    Ok(())
}

/// An address and a size, whether it is a store, and what stands against it.
const BARS: [(u32, Size, bool, Option<Bar>); 6] = [
    (0x1001, Size::B4, false, Some(Bar::Alignment)),
    (0x10_0000, Size::B4, false, Some(Bar::Outside)),
    (0x1000, Size::B4, true, Some(Bar::ReadOnly)),
    (0x1000, Size::B4, false, None),
    (0xffc, Size::B4, true, None),
    (0x1008, Size::B8, true, Some(Bar::ReadOnly)),
];

#[test]
fn bars(rt: HostRuntime) -> Result<(), Fail> {
    let image = image(rt.alloc())?;
    for &(addr, size, store, bar) in &BARS {
        assert!(rt; image.test(Place { addr, size }, store) == bar, "at {addr}");
    }
    Ok(())
}

/// An address, how many words are accessed from there on, whether they are stored, and the first word that is barred.
const BLOCKS: [(u32, u32, bool, Option<(u32, Bar)>); 13] = [
    (0x2000, 4, true, None),
    (0x100c, 16, true, None),
    (0xff8, 4, false, None),
    (0xff8, 2, true, None),
    (0xff8, 4, true, Some((0x1000, Bar::ReadOnly))),
    (0x1004, 4, true, Some((0x1004, Bar::ReadOnly))),
    (0xf_fff0, 4, true, None),
    (0xf_fff4, 4, true, Some((0x10_0000, Bar::Outside))),
    (0x2002, 4, false, Some((0x2002, Bar::Alignment))),
    (0xffff_fff8, 4, false, Some((0xffff_fff8, Bar::Outside))),
    (0xffc, 1, true, None),
    (0x1000, 1, true, Some((0x1000, Bar::ReadOnly))),
    (0x2001, 0, true, None),
];

/// Whether the first word that is barred, of at most 16, is this one.
fn is_first_barred(
    image: &Image,
    addr: u32,
    count: u32,
    store: bool,
    barred: Option<(u32, Bar)>,
) -> bool {
    if count > 16 {
        return false;
    }
    match (image.test_words(addr, count, store), barred) {
        (None, None) => true,
        (Some(found), Some((addr, bar))) => found == BarredWord { addr, bar },
        _ => false,
    }
}

#[test]
fn blocks(rt: HostRuntime) -> Result<(), Fail> {
    let image = image(rt.alloc())?;
    for &(addr, count, store, barred) in &BLOCKS {
        assert!(rt;
            is_first_barred(&image, addr, count, store, barred),
            "from {addr}"
        );
    }
    Ok(())
}
