//! Mnemonics: a base, then `s` where the operation has it and it sets the flags, then the condition
//! where it isn't always.
ghost use Rattle.std.specs.Prelude.{◌≡◌};
ghost use Rattle.a32_syntax.specs.Mnemonics.{alu_base, as_operation, barrier_base, base_of, block_base, extend_base, half_base, load_exclusive_base, long_base, may_have_condition, may_set_flags, store_exclusive_base, word_base};

use crate::operations::Operation;
use a32_instr::{AluOp, BarrierKind, HalfKind, LongKind};
use llsc_base::Size;

fn alu_base(op: AluOp) -> &'static [u8]
    ensures { result.now ≡ alu_base op }
{
    match op {
        AluOp::And => b"and",
        AluOp::Eor => b"eor",
        AluOp::Sub => b"sub",
        AluOp::Rsb => b"rsb",
        AluOp::Add => b"add",
        AluOp::Adc => b"adc",
        AluOp::Sbc => b"sbc",
        AluOp::Rsc => b"rsc",
        AluOp::Tst => b"tst",
        AluOp::Teq => b"teq",
        AluOp::Cmp => b"cmp",
        AluOp::Cmn => b"cmn",
        AluOp::Orr => b"orr",
        AluOp::Mov => b"mov",
        AluOp::Bic => b"bic",
        AluOp::Mvn => b"mvn",
    }
}

fn long_base(kind: LongKind) -> &'static [u8]
    ensures { result.now ≡ long_base kind }
{
    match kind {
        LongKind::Umull => b"umull",
        LongKind::Umlal => b"umlal",
        LongKind::Smull => b"smull",
        LongKind::Smlal => b"smlal",
    }
}

fn half_base(kind: HalfKind) -> &'static [u8]
    ensures { result.now ≡ half_base kind }
{
    match kind {
        HalfKind::Strh => b"strh",
        HalfKind::Ldrh => b"ldrh",
        HalfKind::Ldrsb => b"ldrsb",
        HalfKind::Ldrsh => b"ldrsh",
    }
}

fn barrier_base(kind: BarrierKind) -> &'static [u8]
    ensures { result.now ≡ barrier_base kind }
{
    match kind {
        BarrierKind::Dsb => b"dsb",
        BarrierKind::Dmb => b"dmb",
        BarrierKind::Isb => b"isb",
    }
}

fn extend_base(unsigned: bool, half: bool) -> &'static [u8]
    ensures { result.now ≡ extend_base unsigned half }
{
    match (unsigned, half) {
        (false, false) => b"sxtb",
        (false, true) => b"sxth",
        (true, false) => b"uxtb",
        (true, true) => b"uxth",
    }
}

fn word_base(load: bool, byte: bool) -> &'static [u8]
    ensures { result.now ≡ word_base load byte }
{
    match (load, byte) {
        (true, false) => b"ldr",
        (true, true) => b"ldrb",
        (false, false) => b"str",
        (false, true) => b"strb",
    }
}

fn block_base(load: bool, before: bool, up: bool) -> &'static [u8]
    ensures { result.now ≡ block_base load before up }
{
    match (load, before, up) {
        (true, false, true) => b"ldmia",
        (true, true, true) => b"ldmib",
        (true, false, false) => b"ldmda",
        (true, true, false) => b"ldmdb",
        (false, false, true) => b"stmia",
        (false, true, true) => b"stmib",
        (false, false, false) => b"stmda",
        (false, true, false) => b"stmdb",
    }
}

fn load_exclusive_base(size: Size) -> &'static [u8]
    ensures { result.now ≡ load_exclusive_base size }
{
    match size {
        Size::B1 => b"ldrexb",
        Size::B2 => b"ldrexh",
        Size::B4 => b"ldrex",
        Size::B8 => b"ldrexd",
    }
}

fn store_exclusive_base(size: Size) -> &'static [u8]
    ensures { result.now ≡ store_exclusive_base size }
{
    match size {
        Size::B1 => b"strexb",
        Size::B2 => b"strexh",
        Size::B4 => b"strex",
        Size::B8 => b"strexd",
    }
}

fn branch_base(link: bool) -> &'static [u8]
    ensures { result.now ≡ base_of (Operation.Branch link) }
{
    if link { b"bl" } else { b"b" }
}

fn branch_reg_base(link: bool) -> &'static [u8]
    ensures { result.now ≡ base_of (Operation.BranchReg link) }
{
    if link { b"blx" } else { b"bx" }
}

/// The base of an operation's mnemonics.
pub(crate) fn base(operation: Operation) -> &'static [u8]
    ensures { result.now ≡ base_of operation }
{
    match operation {
        Operation::Alu(op) => alu_base(op),
        Operation::Movw => b"movw",
        Operation::Movt => b"movt",
        Operation::Nop => b"nop",
        Operation::Yield => b"yield",
        Operation::Mul => b"mul",
        Operation::Mla => b"mla",
        Operation::Mls => b"mls",
        Operation::Long(kind) => long_base(kind),
        Operation::Clz => b"clz",
        Operation::Rev => b"rev",
        Operation::Extend { unsigned, half } => extend_base(unsigned, half),
        Operation::Word { load, byte } => word_base(load, byte),
        Operation::Half(kind) => half_base(kind),
        Operation::Block { load, before, up } => block_base(load, before, up),
        Operation::Branch { link } => branch_base(link),
        Operation::BranchReg { link } => branch_reg_base(link),
        Operation::Svc => b"svc",
        Operation::LoadEx(size) => load_exclusive_base(size),
        Operation::StoreEx(size) => store_exclusive_base(size),
        Operation::Clrex => b"clrex",
        Operation::Barrier(kind) => barrier_base(kind),
    }
}

/// Whether an operation may set the flags by an `s`: a compare always does, and has none.
pub(crate) fn may_set_flags(operation: Operation) -> bool
    ensures { result ≡ may_set_flags operation }
{
    match operation {
        Operation::Alu(op) => !op.is_compare(),
        Operation::Mul | Operation::Mla | Operation::Long(_) => true,
        _ => false,
    }
}

/// Whether an operation may have a condition (DDI 0406C A5.7: the others are unconditional).
pub(crate) fn may_have_condition(operation: Operation) -> bool
    ensures { result ≡ may_have_condition operation }
{
    !matches!(operation, Operation::Clrex | Operation::Barrier(_))
}
