//! The instruction sets that a program may be of.

/// The instruction set of a program.
#[derive(Clone, Copy, Debug, PartialEq, Eq)]
pub enum SetName {
    /// A32, the instructions of Arm.
    A32,
    /// RV32, the instructions of RISC-V with registers of 32 bits.
    Rv32,
}
