//! Program files: 32-bit ELF executables for Arm or another processor, and programs as an assembler makes them.
//!
//! [`load`] makes the image of an ELF file for Arm on a machine, or names the first of the file's faults in the order of
//! [`ElfFault`]; [`load_as`] does the same for the processor of a given number. [`write`] makes the ELF file of a [`Unit`],
//! for Arm. The format is that of the System V gABI (ELF Header, Program Header). What a file's numbers are stands in
//! `specs/Headers`, what stands against it in `specs/Faults`, and what it makes of memory, byte by byte, in `specs/Image`.
#![tactic(auto)]

mod checks;
mod faults;
mod fields;
mod headers;
mod loader;
mod segments;
mod table;
mod units;
mod writer;

pub use faults::ElfFault;
pub use loader::{load, load_as};
pub use units::{Bytes, Unit, Words};
pub use writer::write;
