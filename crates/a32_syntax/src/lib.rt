//! The assembler's syntax of one instruction: its mnemonic and the forms of its operands, with what they
//! mean, and how an instruction is shown.
#![tactic(auto)]

mod accesses;
mod branches;
mod data_processing;
mod exclusives;
mod immediates;
mod instructions;
mod kinds;
mod labels;
pub mod laws;
mod mnemonics;
mod operand_forms;
mod operations;
mod parts;
mod products;
mod readings;
mod registers;
mod second_operands;
mod shown;
mod shown_accesses;
mod shown_numbers;
mod shown_operands;
mod worked;
mod worked_shown;
mod writing;

pub use instructions::instruction_of;
pub use kinds::AsmKind;
pub use labels::Labels;
pub use operations::{Mnemonic, Operation};
pub use readings::mnemonic_of;
pub use worked::worked_instructions;
pub use worked_shown::worked_showings;
pub use writing::write_instruction;
