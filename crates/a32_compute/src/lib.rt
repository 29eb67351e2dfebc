//! What the operations of an instruction compute: sums, shifts, products, conditions, parts of numbers,
//! lists of registers, and addresses.
//!
//! Each function is proved to be the function of the same meaning that the effects of instructions are
//! made of (`a32_instr`, `specs/Effect` and the files of its classes). None of them knows a core: they
//! take numbers, flags and fields of an instruction, and give numbers, flags and addresses. The
//! interpreter (`a32_step`) computes by them.
#![tactic(auto)]

pub mod arithmetic;
pub mod conditions;
pub mod operands;
pub mod parts;
pub mod products;
pub mod registers;
pub mod shifts;
