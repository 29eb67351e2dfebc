//! The names that no call of the program shows: those of want of memory, and of words that are no instructions.
use super::*;
use a32_asm::AsmFault;
use a32_syntax::AsmKind;
use elf32::ElfFault;
use guest_gen::GenFault;
use guest_machine::TraceFault;
use llsc_base::{DecodeFault, FlatFault};
use llsc_files::programs::ProgramFault;
use llsc_host::ReadFault;
use run_record::RecordFault;

/// A text for whose third line memory is wanting.
const THIRD: AsmFault = AsmFault {
    line: 3,
    kind: AsmKind::Memory,
};

#[test]
fn names_want_of_memory(rt: HostRuntime) {
    for name in [
        ElfFault::Memory.name(),
        ProgramFault::Elf(ElfFault::Memory).name(),
        FlatFault::Memory.name(),
        ProgramFault::Flat(FlatFault::Memory).name(),
        AsmKind::Memory.name(),
        THIRD.name(),
        RecordFault::Memory.name(),
        ReadFault::Memory.name(),
        TraceFault::Memory.name(),
        GenFault::Memory.name(),
    ] {
        same(&rt, name, "Memory");
    }
}

#[test]
fn names_words_that_are_no_instructions(rt: HostRuntime) {
    same(&rt, DecodeFault::Undefined.name(), "Undefined");
    same(&rt, DecodeFault::Unpredictable.name(), "Unpredictable");
}
