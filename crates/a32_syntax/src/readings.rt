//! Which mnemonic a word is.
ghost use Rattle.std.specs.Prelude.{◌≡◌};
ghost use Rattle.a32_syntax.specs.Mnemonics.{as_operation, condition_of, mnemonic_of, read_among, with_condition, with_flags};

use crate::mnemonics::{base, may_have_condition, may_set_flags};
use crate::operations::{Mnemonic, OPERATIONS, Operation};
use a32_forms::place;
use a32_instr::Cond;

/// The condition that a word names (DDI 0406C A8.3); nothing is always.
fn condition_of(word: &[u8]) -> Option<Cond>
    ensures { result ≡ condition_of word.now }
{
    if word.is_empty() {
        return Some(Cond::ALWAYS);
    }
    let number = place(0, b"eq ne cs cc mi pl vs vc hi ls ge lt gt le", word)?;
    Some(Cond::new(number as u8))
}

/// What stands behind the base and the `s`: nothing, or a condition where there may be one.
fn with_condition(operation: Operation, set_flags: bool, word: &[u8]) -> Option<Mnemonic>
    ensures { result ≡ with_condition operation set_flags word.now }
{
    if !word.is_empty() && !may_have_condition(operation) {
        return None;
    }
    let cond = condition_of(word)?;
    Some(Mnemonic {
        operation,
        set_flags,
        cond,
    })
}

/// What stands behind the base: an `s`, where there may be one, and a condition.
#[tactic(auto, unfolding(crate::specs::Mnemonics::with_flags))]
fn with_flags(operation: Operation, word: &[u8]) -> Option<Mnemonic>
    ensures { result ≡ with_flags operation word.now }
{
    if let Some((letter, after)) = word.split_first() {
        if may_set_flags(operation) && *letter == b's' {
            return with_condition(operation, true, after);
        }
    }
    with_condition(operation, false, word)
}

/// A word that begins with an operation's base.
#[tactic(auto, unfolding(crate::specs::Mnemonics::as_operation))]
fn as_operation(word: &[u8], operation: Operation) -> Option<Mnemonic>
    ensures { result ≡ as_operation word.now operation }
{
    let base = base(operation);
    if !word.starts_with(base) {
        return None;
    }
    with_flags(operation, &word[base.len()..])
}

/// The first operation as which a word can be read.
#[tactic(auto, unfolding(crate::specs::Mnemonics::read_among))]
fn read_among(operations: &[Operation], word: &[u8]) -> Option<Mnemonic>
    ensures { result ≡ read_among operations.now word.now }
{
    let mut rest = operations;
    while let Some((operation, after)) = rest.split_first() {
        let found = as_operation(word, *operation);
        if found.is_some() {
            return found;
        }
        rest = after;
    }
    None
}

/// The mnemonic that a word is, if it is one; it is the only one.
pub fn mnemonic_of(word: &[u8]) -> Option<Mnemonic>
    ensures { result ≡ mnemonic_of word.now }
{
    read_among(&OPERATIONS, word)
}
