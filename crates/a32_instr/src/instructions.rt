//! The instructions, by the fields of their words.
ghost use Rattle.std.specs.Prelude.{◌≡◌};
ghost use Rattle.a32_instr.specs.Effect.{condition_of};
ghost use Rattle.a32_instr.specs.Fields.{is_compare, is_move};

use crate::conditions::Cond;
use crate::registers::Reg;
use llsc_base::Size;

/// A data-processing operation, in the order of the opcodes (DDI 0406C A5.2.1, table A5-3).
#[derive(Clone, Copy, Debug, PartialEq, Eq)]
pub enum AluOp {
    And,
    Eor,
    Sub,
    Rsb,
    Add,
    Adc,
    Sbc,
    Rsc,
    Tst,
    Teq,
    Cmp,
    Cmn,
    Orr,
    Mov,
    Bic,
    Mvn,
}

impl AluOp {
    /// Whether the operation only sets the flags.
    pub fn is_compare(self) -> bool
        ensures { result ≡ is_compare self }
    {
        matches!(self, AluOp::Tst | AluOp::Teq | AluOp::Cmp | AluOp::Cmn)
    }

    /// Whether the operation has one operand.
    pub fn is_move(self) -> bool
        ensures { result ≡ is_move self }
    {
        matches!(self, AluOp::Mov | AluOp::Mvn)
    }
}

/// A kind of shift, in the order of its encodings (DDI 0406C A8.4.1).
#[derive(Clone, Copy, Debug, PartialEq, Eq)]
pub enum ShiftKind {
    Lsl,
    Lsr,
    Asr,
    Ror,
}

/// The second operand of a data-processing instruction (DDI 0406C A5.2.4, A8.4).
#[derive(Clone, Copy, Debug, PartialEq, Eq)]
pub enum Operand2 {
    /// `imm8` turned right by twice `turn`, which is at most 15.
    Imm {
        turn: u8,
        imm8: u8,
    },
    /// A register shifted by a number, at most 31. At LSR and ASR 0 stands for 32, at ROR for RRX.
    ByNum {
        rm: Reg,
        kind: ShiftKind,
        amount: u8,
    },
    /// A register shifted by the low byte of another.
    ByReg {
        rm: Reg,
        kind: ShiftKind,
        rs: Reg,
    },
}

/// A multiplication of 64 bits (DDI 0406C A8.8.257, A8.8.256, A8.8.189, A8.8.178).
#[derive(Clone, Copy, Debug, PartialEq, Eq)]
pub enum LongKind {
    Umull,
    Umlal,
    Smull,
    Smlal,
}

/// What is added to the base register of a load or a store, or taken from it (DDI 0406C A5.3).
#[derive(Clone, Copy, Debug, PartialEq, Eq)]
pub enum Offset {
    /// At most 4095 bytes, and at a halfword or a signed byte at most 255.
    Imm {
        add: bool,
        imm: u16,
    },
    /// A register that is shifted by a number, which is at most 31. At a halfword or a signed byte it is
    /// LSL by 0.
    Shifted {
        add: bool,
        rm: Reg,
        kind: ShiftKind,
        amount: u8,
    },
}

/// How a load or a store uses its moved address (DDI 0406C A8.5).
#[derive(Clone, Copy, Debug, PartialEq, Eq)]
pub enum Index {
    /// The moved address is accessed, and the base register keeps its value.
    Plain,
    /// The moved address is accessed, and written to the base register.
    Pre,
    /// The base register's address is accessed, and the moved address is written to it.
    Post,
}

/// A store of a halfword, or a load of a halfword or a signed byte (DDI 0406C A5.2.8).
#[derive(Clone, Copy, Debug, PartialEq, Eq)]
pub enum HalfKind {
    Strh,
    Ldrh,
    Ldrsb,
    Ldrsh,
}

/// A barrier (DDI 0406C A5.7.1).
#[derive(Clone, Copy, Debug, PartialEq, Eq)]
pub enum BarrierKind {
    Dsb,
    Dmb,
    Isb,
}

/// An instruction by the fields of its word, so that each instruction has one word.
#[derive(Clone, Copy, Debug, PartialEq, Eq)]
pub enum Instr {
    /// Data processing (DDI 0406C A5.2). A compare has `rd` 0 and `s` true, a move has `rn` 0.
    Alu {
        cond: Cond,
        op: AluOp,
        s: bool,
        rd: Reg,
        rn: Reg,
        operand: Operand2,
    },
    /// MOVW: `imm` into a register (DDI 0406C A8.8.102, encoding A2).
    Movw {
        cond: Cond,
        rd: Reg,
        imm: u16,
    },
    /// MOVT: `imm` into the upper half of a register (DDI 0406C A8.8.106).
    Movt {
        cond: Cond,
        rd: Reg,
        imm: u16,
    },
    /// NOP (DDI 0406C A8.8.119).
    Nop {
        cond: Cond,
    },
    /// YIELD (DDI 0406C A8.8.426).
    Yield {
        cond: Cond,
    },
    /// MUL: `rn` times `rm` (DDI 0406C A8.8.114).
    Mul {
        cond: Cond,
        s: bool,
        rd: Reg,
        rn: Reg,
        rm: Reg,
    },
    /// MLA: `rn` times `rm`, plus `ra` (DDI 0406C A8.8.100).
    Mla {
        cond: Cond,
        s: bool,
        rd: Reg,
        rn: Reg,
        rm: Reg,
        ra: Reg,
    },
    /// MLS: `ra` minus `rn` times `rm` (DDI 0406C A8.8.101).
    Mls {
        cond: Cond,
        rd: Reg,
        rn: Reg,
        rm: Reg,
        ra: Reg,
    },
    /// UMULL, UMLAL, SMULL and SMLAL: `rn` times `rm`, with 64 bits in `hi` and `lo`.
    Long {
        cond: Cond,
        kind: LongKind,
        s: bool,
        lo: Reg,
        hi: Reg,
        rn: Reg,
        rm: Reg,
    },
    /// CLZ: how many leading bits of `rm` are zero (DDI 0406C A8.8.33).
    Clz {
        cond: Cond,
        rd: Reg,
        rm: Reg,
    },
    /// SXTB, SXTH, UXTB and UXTH: the low byte of `rm`, or with `half` its low half, once `rm` is
    /// turned right by 8 times `turn`, which is at most 3 (DDI 0406C A8.8.233, A8.8.235, A8.8.274,
    /// A8.8.276).
    Extend {
        cond: Cond,
        unsigned: bool,
        half: bool,
        rd: Reg,
        rm: Reg,
        turn: u8,
    },
    /// REV: the bytes of `rm` the other way round (DDI 0406C A8.8.145).
    Rev {
        cond: Cond,
        rd: Reg,
        rm: Reg,
    },
    /// LDR, STR, LDRB and STRB (DDI 0406C A5.3).
    Word {
        cond: Cond,
        load: bool,
        byte: bool,
        index: Index,
        rn: Reg,
        rt: Reg,
        offset: Offset,
    },
    /// STRH, LDRH, LDRSB and LDRSH (DDI 0406C A5.2.8).
    Half {
        cond: Cond,
        kind: HalfKind,
        index: Index,
        rn: Reg,
        rt: Reg,
        offset: Offset,
    },
    /// LDM and STM: the words of the registers whose bits `list` has, above the address in `rn` where
    /// `up` and below it where not, without that address's own word where `before`, and with `wback`
    /// the address is moved past them (DDI 0406C A5.5).
    Block {
        cond: Cond,
        load: bool,
        before: bool,
        up: bool,
        wback: bool,
        rn: Reg,
        list: u16,
    },
    /// B, and with `link` BL: a distance of `words` words, from -8,388,608 to 8,388,607, counted
    /// from two words after the instruction (DDI 0406C A8.8.18, A8.8.25).
    Branch {
        cond: Cond,
        link: bool,
        words: i32,
    },
    /// BX, and with `link` BLX: the register has the address (DDI 0406C A8.8.27, A8.8.26).
    BranchReg {
        cond: Cond,
        link: bool,
        rm: Reg,
    },
    /// SVC with an immediate below 2 to the 24 (DDI 0406C A8.8.228).
    Svc {
        cond: Cond,
        imm: u32,
    },
    /// LDREX, LDREXB, LDREXH and LDREXD, which loads `rt` and the next register
    /// (DDI 0406C A8.8.75 to A8.8.78).
    LoadEx {
        cond: Cond,
        size: Size,
        rn: Reg,
        rt: Reg,
    },
    /// STREX, STREXB, STREXH and STREXD, which stores `rt` and the next register
    /// (DDI 0406C A8.8.212 to A8.8.215).
    StoreEx {
        cond: Cond,
        size: Size,
        rn: Reg,
        rd: Reg,
        rt: Reg,
    },
    /// CLREX (DDI 0406C A8.8.32).
    Clrex,
    /// DSB, DMB and ISB with an option from 0 to 15 (DDI 0406C A8.8.44, A8.8.43, A8.8.53).
    Barrier {
        kind: BarrierKind,
        option: u8,
    },
}

impl Instr {
    /// The condition of an instruction; one that has none is carried out always.
    pub fn cond(&self) -> Cond
        ensures { result ≡ condition_of self.now }
    {
        match self {
            Instr::Alu { cond, .. } => *cond,
            Instr::Movw { cond, .. } => *cond,
            Instr::Movt { cond, .. } => *cond,
            Instr::Nop { cond } => *cond,
            Instr::Yield { cond } => *cond,
            Instr::Mul { cond, .. } => *cond,
            Instr::Mla { cond, .. } => *cond,
            Instr::Mls { cond, .. } => *cond,
            Instr::Long { cond, .. } => *cond,
            Instr::Clz { cond, .. } => *cond,
            Instr::Extend { cond, .. } => *cond,
            Instr::Rev { cond, .. } => *cond,
            Instr::Word { cond, .. } => *cond,
            Instr::Half { cond, .. } => *cond,
            Instr::Block { cond, .. } => *cond,
            Instr::Branch { cond, .. } => *cond,
            Instr::BranchReg { cond, .. } => *cond,
            Instr::Svc { cond, .. } => *cond,
            Instr::LoadEx { cond, .. } => *cond,
            Instr::StoreEx { cond, .. } => *cond,
            Instr::Clrex | Instr::Barrier { .. } => Cond::ALWAYS,
        }
    }
}
