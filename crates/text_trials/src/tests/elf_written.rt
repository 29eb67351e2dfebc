//! The ELF file of a program, against rows that were written by hand.
use super::same;
use elf32::{Bytes, Unit, Words, write};
use std::alloc::{AllocError, Global};
use std::test::Fail;

// The rows of the file of two words, three bytes and a space of 4.

/// The identification.
const IDENTIFICATION: [u8; 16] = [0x7f, 0x45, 0x4c, 0x46, 1, 1, 1, 0, 0, 0, 0, 0, 0, 0, 0, 0];

/// The file's kind, its machine and its version.
const KIND: [u8; 8] = [2, 0, 40, 0, 1, 0, 0, 0];

/// The entry, the places of both tables of headers, and the flags.
const ENTRY: [u8; 16] = [0, 0x10, 0, 0, 52, 0, 0, 0, 0, 0, 0, 0, 0, 0, 0, 5];

/// The sizes and the counts of the headers.
const SIZES: [u8; 12] = [52, 0, 32, 0, 2, 0, 0, 0, 0, 0, 0, 0];

/// The code's program header: its type, its place in the file, and its address twice.
const CODE_PLACE: [u8; 16] = [1, 0, 0, 0, 116, 0, 0, 0, 0, 0x10, 0, 0, 0, 0x10, 0, 0];

/// Its sizes in the file and in memory, its flags and its alignment.
const CODE_SIZE: [u8; 16] = [8, 0, 0, 0, 8, 0, 0, 0, 5, 0, 0, 0, 4, 0, 0, 0];

/// The program header of the data: its type, its place in the file, and its address twice.
const DATA_PLACE: [u8; 16] = [1, 0, 0, 0, 124, 0, 0, 0, 0, 0x20, 0, 0, 0, 0x20, 0, 0];

/// Its sizes in the file and in memory, its flags and its alignment.
const DATA_SIZE: [u8; 16] = [3, 0, 0, 0, 7, 0, 0, 0, 6, 0, 0, 0, 4, 0, 0, 0];

/// The two words.
const CODE: [u8; 8] = [0x01, 0x70, 0xa0, 0xe3, 0x00, 0x00, 0x00, 0xef];

/// The three bytes.
const DATA: [u8; 3] = [0x11, 0x22, 0x33];

/// All rows, in order.
const ROWS: [&[u8]; 10] = [
    &IDENTIFICATION,
    &KIND,
    &ENTRY,
    &SIZES,
    &CODE_PLACE,
    &CODE_SIZE,
    &DATA_PLACE,
    &DATA_SIZE,
    &CODE,
    &DATA,
];

/// The bytes of all rows.
fn wanted(alloc: Global) -> Result<Vec<u8>, AllocError> {
    let mut bytes = Vec::new(alloc);
    for row in &ROWS {
        bytes.extend_from_slice(row)?;
    }
    Ok(bytes)
}

/// The file as it is written.
fn written(alloc: Global) -> Result<Vec<u8>, AllocError> {
    let unit = Unit {
        words: Words::new(vec![in alloc; 0xe3a0_7001, 0xef00_0000]?),
        bytes: Bytes::new(vec![in alloc; 0x11, 0x22, 0x33]?),
        space: 4,
    };
    write(alloc, &unit)
}

#[test]
fn writes_each_part(rt: HostRuntime) -> Result<(), Fail> {
    let file = written(rt.alloc())?;
    let rows = wanted(rt.alloc())?;
    same(&rt, file.as_slice(), rows.as_slice());
    Ok(())
}
