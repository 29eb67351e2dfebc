//! A program's code, data and space.
use elf32::{Bytes, Unit, Words};
use std::alloc::{AllocError, Global};
use std::test::Fail;

/// The code.
const WORDS: [u32; 1] = [0xe320_f000];

/// The data.
const BYTES: [u8; 1] = [7];

/// A program of these, with a space of 4 bytes.
fn unit(alloc: Global) -> Result<Unit, AllocError> {
    Ok(Unit {
        words: Words::new(vec![in alloc; 0xe320_f000]?),
        bytes: Bytes::new(vec![in alloc; 7]?),
        space: 4,
    })
}

#[test]
fn keeps_its_parts(rt: HostRuntime) -> Result<(), Fail> {
    let unit = unit(rt.alloc())?;
    assert!(rt; unit.words.as_slice() == WORDS.as_slice());
    assert!(rt; unit.bytes.as_slice() == BYTES.as_slice());
    assert!(rt; unit.space == 4);
    assert!(rt; unit.words.into_vec().as_slice() == WORDS.as_slice());
    assert!(rt; unit.bytes.into_vec().as_slice() == BYTES.as_slice());
    Ok(())
}
