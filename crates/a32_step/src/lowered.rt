//! A32 instructions whose operands are found beforehand.
ghost use Rattle.std.specs.Prelude.{◌≡◌, ◌+◌, ℕ, Bool, false, true, IfSome};
ghost use Rattle.a32_instr.specs.DataProcessing.{immediate};
ghost use Rattle.a32_instr.specs.declared.instructions.Instr.TheVariants.{Alu, Branch, Word};
ghost use Rattle.a32_instr.specs.declared.instructions.Offset.TheVariants.{Imm as OffsetImm, Shifted as OffsetShifted};
ghost use Rattle.a32_instr.specs.LoadStore.{moved};
ghost use Rattle.llsc_base.specs.Words.{low32};
ghost use Rattle.a32_instr.specs.declared.instructions.Operand2.TheVariants.{ByNum, Imm};
ghost use Rattle.a32_instr.specs.declared.instructions.ShiftKind.TheVariants.{Lsl};
ghost use Rattle.a32_step.specs.RowActs.{carry_by, number_in, plain_in, shift_in, shifted_in, IsLoweredOf};
ghost use Rattle.a32_step.specs.inner.Lowering.{DoesAccess, DoesAdded, DoesData, DoesShift, IsWhole};

mod products;

use crate::amounts::Amount;
use crate::low::Low;
use crate::rows::{Carry, Row};
use a32_compute::shifts::{is_negative, rotate_right};
use a32_instr::{AluOp, Cond, Index, Instr, Offset, Operand2, ShiftKind};

/// An A32 instruction with its operands.
#[derive(Clone, Copy)]
pub struct Lowered {
    /// What it does where its condition passes.
    pub(crate) row: Row,
    pub(crate) d: Low,
    pub(crate) n: Low,
    pub(crate) m: Low,
    pub(crate) a: Low,
    pub(crate) carry: Carry,
    pub(crate) kind: ShiftKind,
    pub(crate) amount: Amount,
    pub(crate) number: u32,
    pub(crate) instr: Instr,
}

/// A number and the shifter's carry.
#[derive(Clone, Copy)]
pub struct Number {
    pub value: u32,
    pub carry: Carry,
}

/// An immediate operand as a number.
fn immediate(turn: u8, imm8: u8) -> Number
    ensures { (c : Bool) → record { value = result.value; carry = carry_by result.carry c } ≡ immediate turn imm8 c }
{
    let value = rotate_right(u32::from(imm8), 2 * u32::from(turn));
    let carry = if turn == 0 {
        Carry::Old
    } else if is_negative(value) {
        Carry::Set
    } else {
        Carry::Clear
    };
    Number { value, carry }
}

/// The row of data processing with a number, where there is one.
#[rattlefmt::skip] // a row for each
fn number_row(op: AluOp, sets: bool) -> Option<Row>
    ensures does { IfSome result (DoesData op sets number_in) }
    ensures whole { IfSome result IsWhole }
{
    match (op, sets) {
        (AluOp::And, false) => Some(Row::AndNumber),
        (AluOp::And, true) => Some(Row::AndsNumber),
        (AluOp::Eor, false) => Some(Row::EorNumber),
        (AluOp::Sub, false) => Some(Row::SubNumber),
        (AluOp::Sub, true) => Some(Row::SubsNumber),
        (AluOp::Rsb, false) => Some(Row::RsbNumber),
        (AluOp::Add, false) => Some(Row::AddNumber),
        (AluOp::Add, true) => Some(Row::AddsNumber),
        (AluOp::Adc, false) => Some(Row::AdcNumber),
        (AluOp::Tst, true) => Some(Row::TstNumber),
        (AluOp::Teq, true) => Some(Row::TeqNumber),
        (AluOp::Cmp, true) => Some(Row::CmpNumber),
        (AluOp::Cmn, true) => Some(Row::CmnNumber),
        (AluOp::Orr, false) => Some(Row::OrrNumber),
        (AluOp::Mov, false) => Some(Row::MovNumber),
        (AluOp::Mov, true) => Some(Row::MovsNumber),
        (AluOp::Bic, false) => Some(Row::BicNumber),
        (AluOp::Mvn, false) => Some(Row::MvnNumber),
        _ => None,
    }
}

/// The row of data processing with a register as it is, where there is one.
#[rattlefmt::skip] // a row for each
fn plain_row(op: AluOp, sets: bool) -> Option<Row>
    ensures does { IfSome result (DoesData op sets plain_in) }
    ensures whole { IfSome result IsWhole }
{
    match (op, sets) {
        (AluOp::And, false) => Some(Row::AndPlain),
        (AluOp::And, true) => Some(Row::AndsPlain),
        (AluOp::Eor, false) => Some(Row::EorPlain),
        (AluOp::Eor, true) => Some(Row::EorsPlain),
        (AluOp::Sub, false) => Some(Row::SubPlain),
        (AluOp::Sub, true) => Some(Row::SubsPlain),
        (AluOp::Rsb, false) => Some(Row::RsbPlain),
        (AluOp::Add, false) => Some(Row::AddPlain),
        (AluOp::Add, true) => Some(Row::AddsPlain),
        (AluOp::Adc, false) => Some(Row::AdcPlain),
        (AluOp::Adc, true) => Some(Row::AdcsPlain),
        (AluOp::Sbc, false) => Some(Row::SbcPlain),
        (AluOp::Sbc, true) => Some(Row::SbcsPlain),
        (AluOp::Tst, true) => Some(Row::TstPlain),
        (AluOp::Teq, true) => Some(Row::TeqPlain),
        (AluOp::Cmp, true) => Some(Row::CmpPlain),
        (AluOp::Cmn, true) => Some(Row::CmnPlain),
        (AluOp::Orr, false) => Some(Row::OrrPlain),
        (AluOp::Orr, true) => Some(Row::OrrsPlain),
        (AluOp::Mov, false) => Some(Row::MovPlain),
        (AluOp::Mov, true) => Some(Row::MovsPlain),
        (AluOp::Bic, false) => Some(Row::BicPlain),
        (AluOp::Mvn, false) => Some(Row::MvnPlain),
        _ => None,
    }
}

/// The row of data processing that sets no flags with a register shifted by a number that isn't 0, where there is one.
#[rattlefmt::skip] // a row for each
fn shift_row(op: AluOp, kind: ShiftKind) -> Option<Row>
    ensures does { IfSome result (DoesData op false (shift_in kind)) }
    ensures whole { IfSome result IsWhole }
{
    match (op, kind) {
        (AluOp::And, ShiftKind::Lsl) => Some(Row::AndLsl),
        (AluOp::Eor, ShiftKind::Lsl) => Some(Row::EorLsl),
        (AluOp::Sub, ShiftKind::Lsl) => Some(Row::SubLsl),
        (AluOp::Rsb, ShiftKind::Lsl) => Some(Row::RsbLsl),
        (AluOp::Add, ShiftKind::Lsl) => Some(Row::AddLsl),
        (AluOp::Orr, ShiftKind::Lsl) => Some(Row::OrrLsl),
        (AluOp::Mov, ShiftKind::Lsl) => Some(Row::MovLsl),
        (AluOp::Bic, ShiftKind::Lsl) => Some(Row::BicLsl),
        (AluOp::And, ShiftKind::Lsr) => Some(Row::AndLsr),
        (AluOp::Eor, ShiftKind::Lsr) => Some(Row::EorLsr),
        (AluOp::Sub, ShiftKind::Lsr) => Some(Row::SubLsr),
        (AluOp::Rsb, ShiftKind::Lsr) => Some(Row::RsbLsr),
        (AluOp::Add, ShiftKind::Lsr) => Some(Row::AddLsr),
        (AluOp::Orr, ShiftKind::Lsr) => Some(Row::OrrLsr),
        (AluOp::Mov, ShiftKind::Lsr) => Some(Row::MovLsr),
        (AluOp::Bic, ShiftKind::Lsr) => Some(Row::BicLsr),
        (AluOp::And, ShiftKind::Asr) => Some(Row::AndAsr),
        (AluOp::Eor, ShiftKind::Asr) => Some(Row::EorAsr),
        (AluOp::Sub, ShiftKind::Asr) => Some(Row::SubAsr),
        (AluOp::Rsb, ShiftKind::Asr) => Some(Row::RsbAsr),
        (AluOp::Add, ShiftKind::Asr) => Some(Row::AddAsr),
        (AluOp::Orr, ShiftKind::Asr) => Some(Row::OrrAsr),
        (AluOp::Mov, ShiftKind::Asr) => Some(Row::MovAsr),
        (AluOp::Bic, ShiftKind::Asr) => Some(Row::BicAsr),
        (AluOp::And, ShiftKind::Ror) => Some(Row::AndRor),
        (AluOp::Eor, ShiftKind::Ror) => Some(Row::EorRor),
        (AluOp::Sub, ShiftKind::Ror) => Some(Row::SubRor),
        (AluOp::Rsb, ShiftKind::Ror) => Some(Row::RsbRor),
        (AluOp::Add, ShiftKind::Ror) => Some(Row::AddRor),
        (AluOp::Orr, ShiftKind::Ror) => Some(Row::OrrRor),
        (AluOp::Mov, ShiftKind::Ror) => Some(Row::MovRor),
        (AluOp::Bic, ShiftKind::Ror) => Some(Row::BicRor),
        _ => None,
    }
}

/// The row of data processing that sets the flags with a register shifted by a number, where there is one.
#[rattlefmt::skip] // a row for each
fn shifted_row(op: AluOp, sets: bool) -> Option<Row>
    ensures does { IfSome result (DoesData op sets shifted_in) }
    ensures whole { IfSome result IsWhole }
{
    match (op, sets) {
        (AluOp::And, true) => Some(Row::AndsShifted),
        (AluOp::Sub, true) => Some(Row::SubsShifted),
        (AluOp::Add, true) => Some(Row::AddsShifted),
        (AluOp::Tst, true) => Some(Row::TstShifted),
        (AluOp::Cmp, true) => Some(Row::CmpShifted),
        (AluOp::Orr, true) => Some(Row::OrrsShifted),
        (AluOp::Mov, true) => Some(Row::MovsShifted),
        _ => None,
    }
}

/// The row of a load or a store at a register plus a number.
#[rattlefmt::skip] // a row for each
fn access_row(load: bool, byte: bool, index: Index) -> Row
    ensures does { DoesAccess load byte index result }
    ensures whole { IsWhole result }
{
    match (load, byte, index) {
        (true, false, Index::Plain) => Row::Ldr,
        (true, false, Index::Pre) => Row::LdrPre,
        (true, false, Index::Post) => Row::LdrPost,
        (true, true, Index::Plain) => Row::Ldrb,
        (true, true, Index::Pre) => Row::LdrbPre,
        (true, true, Index::Post) => Row::LdrbPost,
        (false, false, Index::Plain) => Row::Str,
        (false, false, Index::Pre) => Row::StrPre,
        (false, false, Index::Post) => Row::StrPost,
        (false, true, Index::Plain) => Row::Strb,
        (false, true, Index::Pre) => Row::StrbPre,
        (false, true, Index::Post) => Row::StrbPost,
    }
}

/// The distance by which an offset moves an address up, modulo 2 to the 32.
fn distance(add: bool, imm: u16) -> u32
    ensures { (base : ℕ) → low32 (base + result) ≡ moved base add imm }
{
    let imm = u32::from(imm);
    if add { imm } else { 0u32.wrapping_sub(imm) }
}

/// The register that a second operand is as it is, where it is one but the PC.
fn plain(operand: &Operand2) -> Option<Low>
    ensures { IfSome result (λ low. operand.now ≡ ByNum low Lsl 0) }
{
    let Operand2::ByNum { rm, kind, amount } = operand else {
        return None;
    };
    if *kind != ShiftKind::Lsl || *amount != 0 {
        return None;
    }
    Low::of(*rm)
}

/// A register that is shifted by a number.
#[derive(Clone, Copy)]
struct Shift {
    m: Low,
    kind: ShiftKind,
    amount: Amount,
}

/// The register and the shift that a second operand is, where the number is in the word and the register isn't the PC.
fn shift_of(operand: &Operand2) -> Option<Shift>
    ensures { IfSome result (λ by. operand.now ≡ ByNum by.m by.kind by.amount) }
{
    let Operand2::ByNum { rm, kind, amount } = operand else {
        return None;
    };
    let m = Low::of(*rm)?;
    let amount = Amount::of(*amount)?;
    Some(Shift {
        m,
        kind: *kind,
        amount,
    })
}

/// The row of a load or a store at a register plus one that is shifted left.
fn added_row(load: bool, byte: bool) -> Row
    ensures does { DoesAdded load byte result }
    ensures whole { IsWhole result }
{
    match (load, byte) {
        (true, false) => Row::LdrLsl,
        (true, true) => Row::LdrbLsl,
        (false, false) => Row::StrLsl,
        (false, true) => Row::StrbLsl,
    }
}

/// The register that an offset adds, shifted left, where it is one but the PC.
fn left_part(offset: &Offset) -> Option<Shift>
    ensures { IfSome result (λ by. offset.now ≡ OffsetShifted true by.m Lsl by.amount) }
{
    let Offset::Shifted {
        add,
        rm,
        kind,
        amount,
    } = offset
    else {
        return None;
    };
    if !*add || *kind != ShiftKind::Lsl {
        return None;
    }
    let m = Low::of(*rm)?;
    let amount = Amount::of(*amount)?;
    Some(Shift {
        m,
        kind: ShiftKind::Lsl,
        amount,
    })
}

/// The row of data processing with a register shifted by a number, where there is one.
fn row_of_shift(op: AluOp, sets: bool, by: &Shift) -> Option<Row>
    ensures does { IfSome result (λ row. DoesShift op sets by.now.kind by.now.amount row) }
    ensures whole { IfSome result IsWhole }
{
    if sets {
        return shifted_row(op, sets);
    }
    if by.amount.num() == 0 {
        return None;
    }
    shift_row(op, by.kind)
}

impl Lowered {
    /// An instruction that does what it does.
    pub(crate) fn other(instr: Instr) -> Lowered
        ensures { IsLoweredOf instr result }
    {
        Lowered {
            row: Row::Other,
            d: Low::FIRST,
            n: Low::FIRST,
            m: Low::FIRST,
            a: Low::FIRST,
            carry: Carry::Old,
            kind: ShiftKind::Lsl,
            amount: Amount::NONE,
            number: 0,
            instr,
        }
    }

    /// Data processing with an immediate, where it has a row.
    fn with_number(
        instr: Instr,
        op: AluOp,
        sets: bool,
        d: Low,
        n: Low,
        turn: u8,
        imm8: u8,
    ) -> Option<Lowered>
        ensures { IfSome result (λ kept. (cond rd rn : ℕ) → instr ≡ Alu cond op sets rd rn (Imm turn imm8) → d ≡ rd → n ≡ rn → IsLoweredOf instr kept) }
    {
        let row = number_row(op, sets)?;
        let number = immediate(turn, imm8);
        let _bound = n.num();
        Some(Lowered {
            row,
            d,
            n,
            m: n,
            a: Low::FIRST,
            carry: number.carry,
            kind: ShiftKind::Lsl,
            amount: Amount::NONE,
            number: number.value,
            instr,
        })
    }

    /// Data processing with a register as it is, where it has a row.
    fn with_plain(instr: Instr, op: AluOp, sets: bool, d: Low, n: Low, m: Low) -> Option<Lowered>
        ensures { IfSome result (λ kept. (cond rd rn rm : ℕ) → instr ≡ Alu cond op sets rd rn (ByNum rm Lsl 0) → d ≡ rd → n ≡ rn → m ≡ rm → IsLoweredOf instr kept) }
    {
        let row = plain_row(op, sets)?;
        let _bounds = (n.num(), m.num());
        Some(Lowered {
            row,
            d,
            n,
            m,
            a: Low::FIRST,
            carry: Carry::Old,
            kind: ShiftKind::Lsl,
            amount: Amount::NONE,
            number: 0,
            instr,
        })
    }

    /// Data processing with a second operand, where it has a row.
    fn with_operand(
        instr: Instr,
        op: AluOp,
        sets: bool,
        d: Low,
        n: Low,
        operand: &Operand2,
    ) -> Option<Lowered>
        ensures { IfSome result (λ kept. (cond rd rn : ℕ) → instr ≡ Alu cond op sets rd rn operand.now → d ≡ rd → n ≡ rn → IsLoweredOf instr kept) }
    {
        if let Operand2::Imm { turn, imm8 } = operand {
            return Lowered::with_number(instr, op, sets, d, n, *turn, *imm8);
        }
        if let Some(m) = plain(operand) {
            return Lowered::with_plain(instr, op, sets, d, n, m);
        }
        let by = shift_of(operand)?;
        Lowered::with_shift(instr, op, sets, d, n, &by)
    }

    /// A load or a store of a word or a byte at a register plus a number.
    fn with_access(
        instr: Instr,
        load: bool,
        byte: bool,
        index: Index,
        n: Low,
        d: Low,
        number: u32,
    ) -> Lowered
        ensures { (cond rn rt : ℕ) (add : Bool) (imm : ℕ) → instr ≡ Word cond load byte index rn rt (OffsetImm add imm) → n ≡ rn → d ≡ rt
            → ((base : ℕ) → low32 (base + number) ≡ moved base add imm) → IsLoweredOf instr result }
    {
        let _bounds = (n.num(), d.num());
        Lowered {
            row: access_row(load, byte, index),
            d,
            n,
            m: n,
            a: Low::FIRST,
            carry: Carry::Old,
            kind: ShiftKind::Lsl,
            amount: Amount::NONE,
            number,
            instr,
        }
    }

    /// Data processing with a register shifted by a number, where it has a row.
    fn with_shift(
        instr: Instr,
        op: AluOp,
        sets: bool,
        d: Low,
        n: Low,
        by: &Shift,
    ) -> Option<Lowered>
        ensures { IfSome result (λ kept. (cond rd rn : ℕ) → instr ≡ Alu cond op sets rd rn (ByNum by.now.m by.now.kind by.now.amount) → d ≡ rd → n ≡ rn → IsLoweredOf instr kept) }
    {
        let row = row_of_shift(op, sets, by)?;
        let _bounds = (n.num(), by.m.num());
        Some(Lowered {
            row,
            d,
            n,
            m: by.m,
            a: Low::FIRST,
            carry: Carry::Old,
            kind: by.kind,
            amount: by.amount,
            number: 0,
            instr,
        })
    }

    /// Data processing with its row, where it has one.
    fn with_data(instr: &Instr) -> Option<Lowered>
        ensures { IfSome result (IsLoweredOf instr.now) }
    {
        let Instr::Alu {
            op,
            s,
            rd,
            rn,
            operand,
            ..
        } = instr
        else {
            return None;
        };
        let d = Low::of(*rd)?;
        let n = Low::of(*rn)?;
        Lowered::with_operand(*instr, *op, *s, d, n, operand)
    }

    /// A load or a store with its row, where it has one.
    fn with_word(instr: &Instr) -> Option<Lowered>
        ensures { IfSome result (IsLoweredOf instr.now) }
    {
        let Instr::Word {
            load,
            byte,
            index,
            rn,
            rt,
            offset,
            ..
        } = instr
        else {
            return None;
        };
        let Offset::Imm { add, imm } = offset else {
            return Lowered::with_added(instr);
        };
        let d = Low::of(*rt)?;
        let number = distance(*add, *imm);
        if let Some(n) = Low::of(*rn) {
            return Some(Lowered::with_access(*instr, *load, *byte, *index, n, d, number));
        }
        if !*load || *byte || *index != Index::Plain {
            return None;
        }
        Some(Lowered::with_literal(*instr, d, number))
    }

    /// A load of a word at the PC plus a number.
    fn with_literal(instr: Instr, d: Low, number: u32) -> Lowered
        ensures { (cond rt : ℕ) (add : Bool) (imm : ℕ) → instr ≡ Word cond true false Index.Plain 15 rt (OffsetImm add imm) → d ≡ rt
            → ((base : ℕ) → low32 (base + number) ≡ moved base add imm) → IsLoweredOf instr result }
    {
        Lowered {
            row: Row::LdrLiteral,
            d,
            number,
            ..Lowered::other(instr)
        }
    }

    /// A load or a store at a register plus one that is shifted left, with its row, where it has one.
    fn with_added(instr: &Instr) -> Option<Lowered>
        ensures { IfSome result (IsLoweredOf instr.now) }
    {
        let Instr::Word {
            load,
            byte,
            index,
            rn,
            rt,
            offset,
            ..
        } = instr
        else {
            return None;
        };
        let m = left_part(offset)?;
        if *index != Index::Plain {
            return None;
        }
        let n = Low::of(*rn)?;
        let d = Low::of(*rt)?;
        let _bounds = (n.num(), d.num(), m.m.num());
        Some(Lowered {
            row: added_row(*load, *byte),
            d,
            n,
            m: m.m,
            a: Low::FIRST,
            carry: Carry::Old,
            kind: ShiftKind::Lsl,
            amount: m.amount,
            number: 0,
            instr: *instr,
        })
    }

    /// A branch by a distance.
    fn with_distance(instr: Instr, link: bool, words: i32) -> Lowered
        ensures { (cond : ℕ) → instr ≡ Branch cond link words → IsLoweredOf instr result }
    {
        let row = if link { Row::BranchLink } else { Row::Branch };
        Lowered {
            row,
            number: words.cast_unsigned(),
            ..Lowered::other(instr)
        }
    }

    /// A branch with its row, where it is one by a distance.
    fn with_branch(instr: &Instr) -> Option<Lowered>
        ensures { IfSome result (IsLoweredOf instr.now) }
    {
        let Instr::Branch { link, words, .. } = instr else {
            return None;
        };
        Some(Lowered::with_distance(*instr, *link, *words))
    }

    /// An instruction with its row, where it has one.
    fn with_row(instr: &Instr) -> Option<Lowered>
        ensures { IfSome result (IsLoweredOf instr.now) }
    {
        match instr {
            Instr::Alu { .. } => Lowered::with_data(instr),
            Instr::Word { .. } => Lowered::with_word(instr),
            Instr::Mul { .. } => Lowered::with_product(instr),
            Instr::Mla { .. } => Lowered::with_sum(instr),
            Instr::Long { .. } => Lowered::with_long(instr),
            Instr::Branch { .. } => Lowered::with_branch(instr),
            _ => None,
        }
    }

    /// An instruction, with its row where it has one.
    pub(crate) fn of(instr: Instr) -> Lowered
        ensures { IsLoweredOf instr result }
    {
        match Lowered::with_row(&instr) {
            Some(lowered) => lowered,
            None => Lowered::other(instr),
        }
    }
}
