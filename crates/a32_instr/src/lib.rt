//! The A32 instructions that a guest may have: their types, the table of their words, and what each
//! of them does.
//!
//! Everything here is from the Arm Architecture Reference Manual, Armv7-A and Armv7-R (DDI 0406C),
//! chapters A5 and A8. What is to be believed stands in `specs/`: the table of instruction words
//! (`Table`), the condition codes (`Condition`), and the effects (`Effect`, with one file for each
//! class of instructions). The decoder and the interpreter are proved against them.
#![tactic(auto)]

mod arithmetic;
mod conditions;
mod instructions;
pub mod laws;
mod registers;
pub mod worked;

pub use arithmetic::{Computed, Shifted, Sum};
pub use conditions::{Cond, Flags};
pub use instructions::{
    AluOp, BarrierKind, HalfKind, Index, Instr, LongKind, Offset, Operand2, ShiftKind,
};
pub use registers::Reg;
