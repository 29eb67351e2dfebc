//! What may be wrong with a line.
ghost use Rattle.std.specs.Prelude.{◌≡◌};
ghost use Rattle.a32_syntax.specs.Kinds.{kind_name};

use thiserror::Error;

/// What is wrong with a line, in the order in which the faults of a line are looked at.
#[derive(Clone, Copy, Debug, PartialEq, Eq, Error)]
pub enum AsmKind {
    /// The line isn't of the form of lines, or what it says can't stand in its section.
    #[error("the line is of no form that a line may have here")]
    Syntax,
    /// The word is no mnemonic.
    #[error("the word is no mnemonic")]
    Mnemonic,
    /// The operands have none of the instruction's forms, or the instruction has no encoding.
    #[error("the operands have no form of the instruction")]
    Operand,
    /// A label that is used is defined nowhere.
    #[error("a label is defined nowhere")]
    Label,
    /// The line defines a label that an earlier line defined.
    #[error("a label is defined twice")]
    Repeated,
    /// A number is above its field or can't be had by a turn, or a branch can't reach its target.
    #[error("a number or a target is out of its range")]
    Range,
    /// With this line the text is above one of the limits.
    #[error("the text is above a limit")]
    TooLong,
    /// Want of memory.
    #[error("out of memory")]
    Memory,
}

impl AsmKind {
    /// The variant's name.
    pub fn name(&self) -> &str
        ensures { result.now ≡ kind_name self.now }
    {
        match self {
            AsmKind::Syntax => "Syntax",
            AsmKind::Mnemonic => "Mnemonic",
            AsmKind::Operand => "Operand",
            AsmKind::Label => "Label",
            AsmKind::Repeated => "Repeated",
            AsmKind::Range => "Range",
            AsmKind::TooLong => "TooLong",
            AsmKind::Memory => "Memory",
        }
    }
}
