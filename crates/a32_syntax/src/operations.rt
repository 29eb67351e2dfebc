//! What a mnemonic names.
use a32_instr::{AluOp, BarrierKind, Cond, HalfKind, LongKind};
use llsc_base::Size;

/// What the base of a mnemonic names: the instructions that differ in nothing but their operands, the
/// condition, and whether they set the flags.
#[derive(Clone, Copy, Debug, PartialEq, Eq)]
pub enum Operation {
    Alu(AluOp),
    Movw,
    Movt,
    Nop,
    Yield,
    Mul,
    Mla,
    Mls,
    Long(LongKind),
    Clz,
    Rev,
    Extend { unsigned: bool, half: bool },
    Word { load: bool, byte: bool },
    Half(HalfKind),
    Block { load: bool, before: bool, up: bool },
    Branch { link: bool },
    BranchReg { link: bool },
    Svc,
    LoadEx(Size),
    StoreEx(Size),
    Clrex,
    Barrier(BarrierKind),
}

/// Every operation.
pub(crate) const OPERATIONS: [Operation; 66] = [
    Operation::Alu(AluOp::And),
    Operation::Alu(AluOp::Eor),
    Operation::Alu(AluOp::Sub),
    Operation::Alu(AluOp::Rsb),
    Operation::Alu(AluOp::Add),
    Operation::Alu(AluOp::Adc),
    Operation::Alu(AluOp::Sbc),
    Operation::Alu(AluOp::Rsc),
    Operation::Alu(AluOp::Tst),
    Operation::Alu(AluOp::Teq),
    Operation::Alu(AluOp::Cmp),
    Operation::Alu(AluOp::Cmn),
    Operation::Alu(AluOp::Orr),
    Operation::Alu(AluOp::Mov),
    Operation::Alu(AluOp::Bic),
    Operation::Alu(AluOp::Mvn),
    Operation::Movw,
    Operation::Movt,
    Operation::Nop,
    Operation::Yield,
    Operation::Mul,
    Operation::Mla,
    Operation::Mls,
    Operation::Long(LongKind::Umull),
    Operation::Long(LongKind::Umlal),
    Operation::Long(LongKind::Smull),
    Operation::Long(LongKind::Smlal),
    Operation::Clz,
    Operation::Rev,
    Operation::Extend {
        unsigned: false,
        half: false,
    },
    Operation::Extend {
        unsigned: false,
        half: true,
    },
    Operation::Extend {
        unsigned: true,
        half: false,
    },
    Operation::Extend {
        unsigned: true,
        half: true,
    },
    Operation::Word {
        load: true,
        byte: false,
    },
    Operation::Word {
        load: false,
        byte: false,
    },
    Operation::Word {
        load: true,
        byte: true,
    },
    Operation::Word {
        load: false,
        byte: true,
    },
    Operation::Half(HalfKind::Ldrh),
    Operation::Half(HalfKind::Strh),
    Operation::Half(HalfKind::Ldrsb),
    Operation::Half(HalfKind::Ldrsh),
    Operation::Block {
        load: true,
        before: false,
        up: true,
    },
    Operation::Block {
        load: true,
        before: true,
        up: true,
    },
    Operation::Block {
        load: true,
        before: false,
        up: false,
    },
    Operation::Block {
        load: true,
        before: true,
        up: false,
    },
    Operation::Block {
        load: false,
        before: false,
        up: true,
    },
    Operation::Block {
        load: false,
        before: true,
        up: true,
    },
    Operation::Block {
        load: false,
        before: false,
        up: false,
    },
    Operation::Block {
        load: false,
        before: true,
        up: false,
    },
    Operation::Branch { link: false },
    Operation::Branch { link: true },
    Operation::BranchReg { link: false },
    Operation::BranchReg { link: true },
    Operation::Svc,
    Operation::LoadEx(Size::B4),
    Operation::LoadEx(Size::B8),
    Operation::LoadEx(Size::B1),
    Operation::LoadEx(Size::B2),
    Operation::StoreEx(Size::B4),
    Operation::StoreEx(Size::B8),
    Operation::StoreEx(Size::B1),
    Operation::StoreEx(Size::B2),
    Operation::Clrex,
    Operation::Barrier(BarrierKind::Dsb),
    Operation::Barrier(BarrierKind::Dmb),
    Operation::Barrier(BarrierKind::Isb),
];

/// A mnemonic: an operation, whether `s` says that it sets the flags, and its condition.
#[derive(Clone, Copy, Debug, PartialEq, Eq)]
pub struct Mnemonic {
    pub operation: Operation,
    pub set_flags: bool,
    pub cond: Cond,
}
