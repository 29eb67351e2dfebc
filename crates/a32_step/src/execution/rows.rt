//! What instructions do whose operands were found beforehand.
ghost use Rattle.std.specs.Prelude.{◌≡◌, ◌≢◌, ◌⊎◌, ◌<◌, ◌≤◌, ◌+◌, ◌^◌, length, slice_index, false, true, [], IsFalse};
ghost use Rattle.llsc_base.specs.Words.{low32, signed};
ghost use Rattle.a32_instr.specs.Condition.{passes};
ghost use Rattle.a32_instr.specs.Branch.{branches};
ghost use Rattle.a32_instr.specs.Effect.{acts};
ghost use Rattle.a32_instr.specs.Fields.{is_compare};
ghost use Rattle.a32_instr.specs.declared.instructions.ShiftKind.TheVariants.{Lsl, Lsr, Asr, Ror};
ghost use Rattle.a32_instr.specs.LoadStore.{written_back};
ghost use Rattle.a32_instr.specs.State.{advanced, with_register};
ghost use Rattle.a32_step.specs.inner.Acting.{IsActed};
ghost use Rattle.a32_step.specs.inner.Coming.{IsCome, HasCome};
ghost use Rattle.a32_step.specs.inner.ExecutionState.{moves};
ghost use Rattle.a32_step.specs.inner.Progress.{progress_of};
ghost use Rattle.a32_step.specs.RowActs.{added_in, branches_where, carry_by, data_acts, is_met_row, literal_in, loads_at, loads_in, moved_in, number_in, place_in, plain_in, shift_in, shifted_in, stores_at, stores_in, x_in, IsLoweredOf};

use super::Execution;
use crate::kept::Kept;
use crate::low::Low;
use crate::lowered::Lowered;
use crate::phases::{Came, Progress};
use crate::rows::{Carry, Row};
use crate::sources::Source;
use a32_compute::arithmetic::{as_signed, compute, value_of};
use a32_compute::operands::{accessed_address, branch_target, part_stored};
use a32_compute::parts::{loaded_word, low_word};
use a32_compute::shifts::{is_negative, rotate_right, shift_by_number};
use a32_instr::{AluOp, Cond, Flags, Index, LongKind, Shifted};
use llsc_base::{Ask, Image, Place, Size};

/// The shifter's carry, by the flag.
#[inline(always)]
fn carry_by(carry: Carry, flag: bool) -> bool
    ensures { result ≡ carry_by carry flag }
{
    match carry {
        Carry::Old => flag,
        Carry::Clear => false,
        Carry::Set => true,
    }
}

impl Execution {
    /// The first operand.
    #[inline(always)]
    fn x(&self, kept: &Lowered) -> u32
        ensures { result ≡ x_in kept.now self.now.state }
    {
        self.regs[kept.n.num() as usize]
    }

    /// The second operand, where it is a number.
    #[inline(always)]
    fn number(&self, kept: &Lowered) -> Shifted
        ensures { result ≡ number_in kept.now self.now.state }
    {
        Shifted {
            value: kept.number,
            carry: carry_by(kept.carry, self.flags.c),
        }
    }

    /// The second operand, where it is a register as it is.
    #[inline(always)]
    fn plain(&self, kept: &Lowered) -> Shifted
        ensures { result ≡ plain_in kept.now self.now.state }
    {
        Shifted {
            value: self.regs[kept.m.num() as usize],
            carry: self.flags.c,
        }
    }

    /// The instruction is complete, and the one behind it comes next.
    #[inline(always)]
    pub(super) fn go_next(&mut self) -> Came
        ensures came { result ≡ Came.Next }
        ensures state { self.new ≡ record self.old { state = advanced self.old.state } }
    {
        self.advance();
        Came::Next
    }

    /// The instruction is complete with a value in a register.
    #[inline(always)]
    #[tactic(auto, using(llsc_base::proofs::Words::words_set))]
    pub(super) fn put(&mut self, d: Low, value: u32) -> Came
        ensures came { result ≡ Came.Next }
        ensures state { self.new ≡ record self.old { state = advanced (with_register self.old.state d value) } }
        ensures low { d < 15 }
    {
        self.regs[d.num() as usize] = value;
        self.go_next()
    }

    /// Data processing that sets no flags.
    #[inline(always)]
    fn data(&mut self, op: AluOp, kept: &Lowered, y: Shifted) -> Came
        requires { is_compare op ≡ false }
        ensures came { result ≡ Came.Next }
        ensures full { progress_of (data_acts op false kept.now y self.old.state) ≡ Progress.Complete }
        ensures state { self.new ≡ moves self.old (data_acts op false kept.now y self.old.state) }
        ensures next { self.new.state.pc ≡ low32 (self.old.state.pc + 4) }
    {
        let value = value_of(op, self.x(kept), y, self.flags);
        self.put(kept.d, value)
    }

    /// The flags, one by one, so that each goes where it belongs at once.
    #[inline(always)]
    fn set_flags(&mut self, flags: Flags)
        ensures { self.new ≡ record self.old { state = record self.old.state { flags = flags } } }
    {
        self.flags.n = flags.n;
        self.flags.z = flags.z;
        self.flags.c = flags.c;
        self.flags.v = flags.v;
    }

    /// Data processing that sets the flags.
    #[inline(always)]
    fn data_setting(&mut self, op: AluOp, kept: &Lowered, y: Shifted) -> Came
        requires { is_compare op ≡ false }
        ensures came { result ≡ Came.Next }
        ensures full { progress_of (data_acts op true kept.now y self.old.state) ≡ Progress.Complete }
        ensures state { self.new ≡ moves self.old (data_acts op true kept.now y self.old.state) }
        ensures next { self.new.state.pc ≡ low32 (self.old.state.pc + 4) }
    {
        let computed = compute(op, self.x(kept), y, self.flags);
        self.set_flags(computed.flags);
        self.put(kept.d, computed.value)
    }

    /// A compare.
    #[inline(always)]
    fn compare(&mut self, op: AluOp, kept: &Lowered, y: Shifted) -> Came
        requires { is_compare op ≡ true }
        ensures came { result ≡ Came.Next }
        ensures full { progress_of (data_acts op true kept.now y self.old.state) ≡ Progress.Complete }
        ensures state { self.new ≡ moves self.old (data_acts op true kept.now y self.old.state) }
        ensures next { self.new.state.pc ≡ low32 (self.old.state.pc + 4) }
    {
        let computed = compute(op, self.x(kept), y, self.flags);
        self.set_flags(computed.flags);
        self.go_next()
    }

    /// Data processing that sets no flags, of a number.
    #[inline(always)]
    fn data_number(&mut self, op: AluOp, kept: &Lowered) -> Came
        requires { is_compare op ≡ false }
        ensures came { result ≡ Came.Next }
        ensures full { progress_of (data_acts op false kept.now (number_in kept.now self.old.state) self.old.state) ≡ Progress.Complete }
        ensures state { self.new ≡ moves self.old (data_acts op false kept.now (number_in kept.now self.old.state) self.old.state) }
        ensures next { self.new.state.pc ≡ low32 (self.old.state.pc + 4) }
    {
        let y = self.number(kept);
        self.data(op, kept, y)
    }

    /// A compare, of a number.
    #[inline(always)]
    fn compare_number(&mut self, op: AluOp, kept: &Lowered) -> Came
        requires { is_compare op ≡ true }
        ensures came { result ≡ Came.Next }
        ensures full { progress_of (data_acts op true kept.now (number_in kept.now self.old.state) self.old.state) ≡ Progress.Complete }
        ensures state { self.new ≡ moves self.old (data_acts op true kept.now (number_in kept.now self.old.state) self.old.state) }
        ensures next { self.new.state.pc ≡ low32 (self.old.state.pc + 4) }
    {
        let y = self.number(kept);
        self.compare(op, kept, y)
    }

    /// Data processing that sets no flags, of a register as it is.
    #[inline(always)]
    fn data_plain(&mut self, op: AluOp, kept: &Lowered) -> Came
        requires { is_compare op ≡ false }
        ensures came { result ≡ Came.Next }
        ensures full { progress_of (data_acts op false kept.now (plain_in kept.now self.old.state) self.old.state) ≡ Progress.Complete }
        ensures state { self.new ≡ moves self.old (data_acts op false kept.now (plain_in kept.now self.old.state) self.old.state) }
        ensures next { self.new.state.pc ≡ low32 (self.old.state.pc + 4) }
    {
        let y = self.plain(kept);
        self.data(op, kept, y)
    }

    /// A compare, of a register as it is.
    #[inline(always)]
    fn compare_plain(&mut self, op: AluOp, kept: &Lowered) -> Came
        requires { is_compare op ≡ true }
        ensures came { result ≡ Came.Next }
        ensures full { progress_of (data_acts op true kept.now (plain_in kept.now self.old.state) self.old.state) ≡ Progress.Complete }
        ensures state { self.new ≡ moves self.old (data_acts op true kept.now (plain_in kept.now self.old.state) self.old.state) }
        ensures next { self.new.state.pc ≡ low32 (self.old.state.pc + 4) }
    {
        let y = self.plain(kept);
        self.compare(op, kept, y)
    }

    /// Data processing that sets the flags, of a number.
    #[inline(always)]
    fn data_setting_number(&mut self, op: AluOp, kept: &Lowered) -> Came
        requires { is_compare op ≡ false }
        ensures came { result ≡ Came.Next }
        ensures full { progress_of (data_acts op true kept.now (number_in kept.now self.old.state) self.old.state) ≡ Progress.Complete }
        ensures state { self.new ≡ moves self.old (data_acts op true kept.now (number_in kept.now self.old.state) self.old.state) }
        ensures next { self.new.state.pc ≡ low32 (self.old.state.pc + 4) }
    {
        let y = self.number(kept);
        self.data_setting(op, kept, y)
    }

    /// Data processing that sets the flags, of a register as it is.
    #[inline(always)]
    fn data_setting_plain(&mut self, op: AluOp, kept: &Lowered) -> Came
        requires { is_compare op ≡ false }
        ensures came { result ≡ Came.Next }
        ensures full { progress_of (data_acts op true kept.now (plain_in kept.now self.old.state) self.old.state) ≡ Progress.Complete }
        ensures state { self.new ≡ moves self.old (data_acts op true kept.now (plain_in kept.now self.old.state) self.old.state) }
        ensures next { self.new.state.pc ≡ low32 (self.old.state.pc + 4) }
    {
        let y = self.plain(kept);
        self.data_setting(op, kept, y)
    }

    /// The second operand, where it is a register shifted by a number.
    #[inline(always)]
    fn shifted(&self, kept: &Lowered) -> Shifted
        ensures { result ≡ shifted_in kept.now self.now.state }
    {
        let value = self.regs[kept.m.num() as usize];
        shift_by_number(kept.kind, value, kept.amount.num(), self.flags.c)
    }

    /// The second operand, where it is a register shifted left.
    #[inline(always)]
    #[tactic(auto, unfolding(a32_instr::specs::Shift::shifted_left), using(a32_compute::proofs::Amounts::left_wide))]
    fn lsl(&self, kept: &Lowered) -> Shifted
        ensures { result ≡ shift_in Lsl kept.now self.now.state }
    {
        let wide = u64::from(self.part(kept)) << kept.amount.num();
        Shifted {
            value: low_word(wide),
            carry: (wide >> 32) % 2 == 1,
        }
    }

    /// The second operand, where it is a register shifted right.
    #[inline(always)]
    #[tactic(auto, unfolding(a32_instr::specs::Shift::shifted_right))]
    fn lsr(&self, kept: &Lowered) -> Shifted
        ensures { result ≡ shift_in Lsr kept.now self.now.state }
    {
        let value = self.part(kept);
        let amount = kept.amount.num();
        Shifted {
            value: value >> amount,
            carry: (value >> amount.saturating_sub(1)) % 2 == 1,
        }
    }

    /// The second operand, where it is a register shifted right as a signed number.
    #[inline(always)]
    #[tactic(auto, unfolding(a32_instr::specs::Shift::shifted_signed))]
    fn asr(&self, kept: &Lowered) -> Shifted
        ensures { result ≡ shift_in Asr kept.now self.now.state }
    {
        let signed = as_signed(self.part(kept));
        let amount = kept.amount.num();
        Shifted {
            value: (signed >> amount).rem_euclid(1 << 32) as u32,
            carry: (signed >> amount.saturating_sub(1)).rem_euclid(2) == 1,
        }
    }

    /// The second operand, where it is a register rotated right.
    #[inline(always)]
    fn ror(&self, kept: &Lowered) -> Shifted
        ensures { result ≡ shift_in Ror kept.now self.now.state }
    {
        let value = rotate_right(self.part(kept), u32::from(kept.amount.num()));
        Shifted {
            value,
            carry: is_negative(value),
        }
    }

    /// Data processing that sets no flags, of a register shifted left.
    #[inline(always)]
    fn data_lsl(&mut self, op: AluOp, kept: &Lowered) -> Came
        requires { is_compare op ≡ false }
        ensures came { result ≡ Came.Next }
        ensures full { progress_of (data_acts op false kept.now (shift_in Lsl kept.now self.old.state) self.old.state) ≡ Progress.Complete }
        ensures state { self.new ≡ moves self.old (data_acts op false kept.now (shift_in Lsl kept.now self.old.state) self.old.state) }
        ensures next { self.new.state.pc ≡ low32 (self.old.state.pc + 4) }
    {
        let y = self.lsl(kept);
        self.data(op, kept, y)
    }

    /// Data processing that sets no flags, of a register shifted right.
    #[inline(always)]
    fn data_lsr(&mut self, op: AluOp, kept: &Lowered) -> Came
        requires { is_compare op ≡ false }
        ensures came { result ≡ Came.Next }
        ensures full { progress_of (data_acts op false kept.now (shift_in Lsr kept.now self.old.state) self.old.state) ≡ Progress.Complete }
        ensures state { self.new ≡ moves self.old (data_acts op false kept.now (shift_in Lsr kept.now self.old.state) self.old.state) }
        ensures next { self.new.state.pc ≡ low32 (self.old.state.pc + 4) }
    {
        let y = self.lsr(kept);
        self.data(op, kept, y)
    }

    /// Data processing that sets no flags, of a register shifted right as a signed number.
    #[inline(always)]
    fn data_asr(&mut self, op: AluOp, kept: &Lowered) -> Came
        requires { is_compare op ≡ false }
        ensures came { result ≡ Came.Next }
        ensures full { progress_of (data_acts op false kept.now (shift_in Asr kept.now self.old.state) self.old.state) ≡ Progress.Complete }
        ensures state { self.new ≡ moves self.old (data_acts op false kept.now (shift_in Asr kept.now self.old.state) self.old.state) }
        ensures next { self.new.state.pc ≡ low32 (self.old.state.pc + 4) }
    {
        let y = self.asr(kept);
        self.data(op, kept, y)
    }

    /// Data processing that sets no flags, of a register rotated right.
    #[inline(always)]
    fn data_ror(&mut self, op: AluOp, kept: &Lowered) -> Came
        requires { is_compare op ≡ false }
        ensures came { result ≡ Came.Next }
        ensures full { progress_of (data_acts op false kept.now (shift_in Ror kept.now self.old.state) self.old.state) ≡ Progress.Complete }
        ensures state { self.new ≡ moves self.old (data_acts op false kept.now (shift_in Ror kept.now self.old.state) self.old.state) }
        ensures next { self.new.state.pc ≡ low32 (self.old.state.pc + 4) }
    {
        let y = self.ror(kept);
        self.data(op, kept, y)
    }

    /// Data processing that sets the flags, of a shifted register.
    #[inline(always)]
    fn data_setting_shifted(&mut self, op: AluOp, kept: &Lowered) -> Came
        requires { is_compare op ≡ false }
        ensures came { result ≡ Came.Next }
        ensures full { progress_of (data_acts op true kept.now (shifted_in kept.now self.old.state) self.old.state) ≡ Progress.Complete }
        ensures state { self.new ≡ moves self.old (data_acts op true kept.now (shifted_in kept.now self.old.state) self.old.state) }
        ensures next { self.new.state.pc ≡ low32 (self.old.state.pc + 4) }
    {
        let y = self.shifted(kept);
        self.data_setting(op, kept, y)
    }

    /// A compare, of a shifted register.
    #[inline(always)]
    fn compare_shifted(&mut self, op: AluOp, kept: &Lowered) -> Came
        requires { is_compare op ≡ true }
        ensures came { result ≡ Came.Next }
        ensures full { progress_of (data_acts op true kept.now (shifted_in kept.now self.old.state) self.old.state) ≡ Progress.Complete }
        ensures state { self.new ≡ moves self.old (data_acts op true kept.now (shifted_in kept.now self.old.state) self.old.state) }
        ensures next { self.new.state.pc ≡ low32 (self.old.state.pc + 4) }
    {
        let y = self.shifted(kept);
        self.compare(op, kept, y)
    }

    /// A branch by a distance.
    #[inline(always)]
    fn branch_kept(&mut self, link: bool, kept: &Lowered) -> Came
        ensures came { result ≡ Came.Jumped }
        ensures full { progress_of (branches link (signed kept.now.number) self.old.state) ≡ Progress.Complete }
        ensures state { self.new ≡ moves self.old (branches link (signed kept.now.number) self.old.state) }
    {
        self.branch(link, kept.number.cast_signed());
        Came::Jumped
    }

    /// A branch by a distance, where the condition of a number passes. The PC is moved on before that is tested: so each way has a
    /// write of its own, and the optimizer keeps them apart.
    #[inline(always)]
    fn branch_where(&mut self, cond: u8, kept: &Lowered) -> Came
        requires { cond < 15 }
        ensures came { (result ≡ Came.Next) ⊎ (result ≡ Came.Jumped) }
        ensures full { progress_of (branches_where cond kept.now self.old.state) ≡ Progress.Complete }
        ensures state { self.new ≡ moves self.old (branches_where cond kept.now self.old.state) }
        ensures next { result ≡ Came.Next → self.new.state.pc ≡ low32 (self.old.state.pc + 4) }
    {
        let target = branch_target(self.pc, kept.number.cast_signed());
        self.advance();
        if !self.meets(Cond::new(cond)) {
            return Came::Next;
        }
        self.pc = target;
        Came::Jumped
    }

    /// The first operand plus the number.
    #[inline(always)]
    fn moved(&self, kept: &Lowered) -> u32
        ensures { result ≡ moved_in kept.now self.now.state }
    {
        self.x(kept).wrapping_add(kept.number)
    }

    /// The register of the second operand.
    #[inline(always)]
    fn part(&self, kept: &Lowered) -> u32
        ensures { result ≡ slice_index self.now.state.regs kept.now.m }
    {
        self.regs[kept.m.num() as usize]
    }

    /// The first operand plus a register that is shifted left.
    #[inline(always)]
    fn added(&self, kept: &Lowered) -> u32
        ensures { result ≡ added_in kept.now self.now.state }
    {
        let by = self.part(kept) << kept.amount.num();
        self.x(kept).wrapping_add(by)
    }

    /// The word or the byte that a load or a store accesses.
    #[inline(always)]
    fn place(&self, index: Index, byte: bool, kept: &Lowered, moved: u32) -> Place
        ensures { result ≡ place_in index byte kept.now moved self.now.state }
    {
        Place {
            addr: accessed_address(index, self.x(kept), moved),
            size: if byte { Size::B1 } else { Size::B4 },
        }
    }

    /// The moved address goes to the base register, where the index writes it back.
    #[inline(always)]
    #[tactic(auto, using(llsc_base::proofs::Words::words_set))]
    fn move_kept_base(&mut self, index: Index, n: Low, moved: u32)
        ensures state { self.new ≡ record self.old { state = written_back index n moved self.old.state } }
        ensures pc { self.new.state.pc ≡ self.old.state.pc }
    {
        match index {
            Index::Plain => {}
            Index::Pre | Index::Post => self.regs[n.num() as usize] = moved,
        }
    }

    /// A load of a word or a byte.
    #[inline(always)]
    fn load_at<S: Source>(
        &mut self,
        byte: bool,
        index: Index,
        kept: &Lowered,
        moved: u32,
        image: &Image,
        source: &mut S,
    ) -> Came
        requires fresh { IsFalse S.RESUMES → self.old.replies ≡ [] }
        requires mem { S.mem source.old ≡ length image.now.bytes }
        requires few { S.counted source.old < 2 ^ 63 }
        ensures came { IsCome S.replies (λ had. loads_at index byte kept.now moved image.now had self.old.state) self.old source.old result self.new source.new }
        ensures mem { S.mem source.new ≡ S.mem source.old }
        ensures counted { S.counted source.new ≤ S.counted source.old + 1 }
    {
        let ask = Ask::Load(self.place(index, byte, kept, moved));
        let Some(reply) = self.reply_to(image, ask, source) else {
            return Came::Held;
        };
        self.move_kept_base(index, kept.n, moved);
        self.put(kept.d, loaded_word(byte, reply))
    }

    /// The same at a register plus the number.
    #[inline(always)]
    fn load_kept<S: Source>(
        &mut self,
        byte: bool,
        index: Index,
        kept: &Lowered,
        image: &Image,
        source: &mut S,
    ) -> Came
        requires fresh { IsFalse S.RESUMES → self.old.replies ≡ [] }
        requires mem { S.mem source.old ≡ length image.now.bytes }
        requires few { S.counted source.old < 2 ^ 63 }
        ensures came { IsCome S.replies (λ had. loads_in index byte kept.now image.now had self.old.state) self.old source.old result self.new source.new }
        ensures mem { S.mem source.new ≡ S.mem source.old }
        ensures counted { S.counted source.new ≤ S.counted source.old + 1 }
    {
        let moved = self.moved(kept);
        self.load_at(byte, index, kept, moved, image, source)
    }

    /// The same at a register plus one that is shifted left.
    #[inline(always)]
    fn load_added<S: Source>(
        &mut self,
        byte: bool,
        kept: &Lowered,
        image: &Image,
        source: &mut S,
    ) -> Came
        requires fresh { IsFalse S.RESUMES → self.old.replies ≡ [] }
        requires mem { S.mem source.old ≡ length image.now.bytes }
        requires few { S.counted source.old < 2 ^ 63 }
        ensures came { IsCome S.replies (λ had. loads_at Index.Plain byte kept.now (added_in kept.now self.old.state) image.now had self.old.state) self.old source.old result self.new source.new }
        ensures mem { S.mem source.new ≡ S.mem source.old }
        ensures counted { S.counted source.new ≤ S.counted source.old + 1 }
    {
        let moved = self.added(kept);
        self.load_at(byte, Index::Plain, kept, moved, image, source)
    }

    /// The PC, as an operand, plus the number.
    #[inline(always)]
    fn literal(&self, kept: &Lowered) -> u32
        ensures { result ≡ literal_in kept.now self.now.state }
    {
        self.pc.wrapping_add(8).wrapping_add(kept.number)
    }

    /// A load of a word at the PC plus the number.
    #[inline(always)]
    fn load_literal<S: Source>(&mut self, kept: &Lowered, image: &Image, source: &mut S) -> Came
        requires fresh { IsFalse S.RESUMES → self.old.replies ≡ [] }
        requires mem { S.mem source.old ≡ length image.now.bytes }
        requires few { S.counted source.old < 2 ^ 63 }
        ensures came { IsCome S.replies (λ had. loads_at Index.Plain false kept.now (literal_in kept.now self.old.state) image.now had self.old.state) self.old source.old result self.new source.new }
        ensures mem { S.mem source.new ≡ S.mem source.old }
        ensures counted { S.counted source.new ≤ S.counted source.old + 1 }
    {
        let moved = self.literal(kept);
        self.load_at(false, Index::Plain, kept, moved, image, source)
    }

    /// A store of a word or a byte.
    #[inline(always)]
    fn store_at<S: Source>(
        &mut self,
        byte: bool,
        index: Index,
        kept: &Lowered,
        moved: u32,
        image: &Image,
        source: &mut S,
    ) -> Came
        requires fresh { IsFalse S.RESUMES → self.old.replies ≡ [] }
        requires mem { S.mem source.old ≡ length image.now.bytes }
        requires few { S.counted source.old < 2 ^ 63 }
        ensures came { IsCome S.replies (λ had. stores_at index byte kept.now moved image.now had self.old.state) self.old source.old result self.new source.new }
        ensures mem { S.mem source.new ≡ S.mem source.old }
        ensures counted { S.counted source.new ≤ S.counted source.old + 1 }
    {
        let value = part_stored(byte, self.regs[kept.d.num() as usize]);
        let ask = Ask::Store(self.place(index, byte, kept, moved), value);
        let Some(_reply) = self.reply_to(image, ask, source) else {
            return Came::Held;
        };
        self.move_kept_base(index, kept.n, moved);
        self.go_next()
    }

    /// The same at a register plus the number.
    #[inline(always)]
    fn store_kept<S: Source>(
        &mut self,
        byte: bool,
        index: Index,
        kept: &Lowered,
        image: &Image,
        source: &mut S,
    ) -> Came
        requires fresh { IsFalse S.RESUMES → self.old.replies ≡ [] }
        requires mem { S.mem source.old ≡ length image.now.bytes }
        requires few { S.counted source.old < 2 ^ 63 }
        ensures came { IsCome S.replies (λ had. stores_in index byte kept.now image.now had self.old.state) self.old source.old result self.new source.new }
        ensures mem { S.mem source.new ≡ S.mem source.old }
        ensures counted { S.counted source.new ≤ S.counted source.old + 1 }
    {
        let moved = self.moved(kept);
        self.store_at(byte, index, kept, moved, image, source)
    }

    /// The same at a register plus one that is shifted left.
    #[inline(always)]
    fn store_added<S: Source>(
        &mut self,
        byte: bool,
        kept: &Lowered,
        image: &Image,
        source: &mut S,
    ) -> Came
        requires fresh { IsFalse S.RESUMES → self.old.replies ≡ [] }
        requires mem { S.mem source.old ≡ length image.now.bytes }
        requires few { S.counted source.old < 2 ^ 63 }
        ensures came { IsCome S.replies (λ had. stores_at Index.Plain byte kept.now (added_in kept.now self.old.state) image.now had self.old.state) self.old source.old result self.new source.new }
        ensures mem { S.mem source.new ≡ S.mem source.old }
        ensures counted { S.counted source.new ≤ S.counted source.old + 1 }
    {
        let moved = self.added(kept);
        self.store_at(byte, Index::Plain, kept, moved, image, source)
    }
}

impl Execution {
    /// What its instruction does, by the table of all of them. It is a call of its own, so that the rows have the host's registers.
    #[cold]
    #[inline(never)]
    fn other<S: Source>(&mut self, kept: &Lowered, image: &Image, source: &mut S) -> Came
        requires fresh { IsFalse S.RESUMES → self.old.replies ≡ [] }
        requires mem { S.mem source.old ≡ length image.now.bytes }
        requires few { S.counted source.old + 16 ≤ 2 ^ 63 }
        ensures came { IsCome S.replies (λ had. acts kept.now.instr image.now had self.old.state) self.old source.old result self.new source.new }
        ensures mem { S.mem source.new ≡ S.mem source.old }
        ensures counted { S.counted source.new ≤ S.counted source.old + 16 }
    {
        match self.act(&kept.instr, image, source) {
            Progress::Complete => Came::Jumped,
            Progress::Held => Came::Held,
        }
    }

    /// What comes of the condition of a number: it passes, or the instruction is complete.
    #[inline(always)]
    fn tries(&mut self, cond: u8) -> Came
        requires { cond < 15 }
        ensures passed { passes cond self.old.state.flags ≡ true → (result ≡ Came.Passed) × (self.new ≡ self.old) }
        ensures failed { passes cond self.old.state.flags ≡ false → (result ≡ Came.Next) × (self.new ≡ record self.old { state = advanced self.old.state }) }
    {
        if self.meets(Cond::new(cond)) {
            return Came::Passed;
        }
        self.go_next()
    }

    /// What a row does, and which instruction comes next.
    #[rattlefmt::skip] // a row for each
    #[inline(always)]
    #[tactic(auto, using(crate::proofs::RowDone::came_next, crate::proofs::RowDone::came_jumped, crate::proofs::RowDone::came_either))]
    pub fn come<S: Source>(&mut self, row: Row, kept: &Lowered, image: &Image, source: &mut S) -> Came
        requires fresh { IsFalse S.RESUMES → self.old.replies ≡ [] }
        requires mem { S.mem source.old ≡ length image.now.bytes }
        requires few { S.counted source.old + 16 ≤ 2 ^ 63 }
        ensures came { HasCome S.replies row kept.now image.now self.old source.old result self.new source.new }
        ensures mem { S.mem source.new ≡ S.mem source.old }
        ensures counted { S.counted source.new ≤ S.counted source.old + 16 }
    {
        match row {
            Row::Unmet => Came::Unmet,
            Row::Other => self.other(kept, image, source),
            Row::AndNumber => self.data_number(AluOp::And, kept),
            Row::AndsNumber => self.data_setting_number(AluOp::And, kept),
            Row::EorNumber => self.data_number(AluOp::Eor, kept),
            Row::SubNumber => self.data_number(AluOp::Sub, kept),
            Row::SubsNumber => self.data_setting_number(AluOp::Sub, kept),
            Row::RsbNumber => self.data_number(AluOp::Rsb, kept),
            Row::AddNumber => self.data_number(AluOp::Add, kept),
            Row::AddsNumber => self.data_setting_number(AluOp::Add, kept),
            Row::AdcNumber => self.data_number(AluOp::Adc, kept),
            Row::TstNumber => self.compare_number(AluOp::Tst, kept),
            Row::TeqNumber => self.compare_number(AluOp::Teq, kept),
            Row::CmpNumber => self.compare_number(AluOp::Cmp, kept),
            Row::CmnNumber => self.compare_number(AluOp::Cmn, kept),
            Row::OrrNumber => self.data_number(AluOp::Orr, kept),
            Row::MovNumber => self.data_number(AluOp::Mov, kept),
            Row::MovsNumber => self.data_setting_number(AluOp::Mov, kept),
            Row::BicNumber => self.data_number(AluOp::Bic, kept),
            Row::MvnNumber => self.data_number(AluOp::Mvn, kept),
            Row::AndPlain => self.data_plain(AluOp::And, kept),
            Row::AndsPlain => self.data_setting_plain(AluOp::And, kept),
            Row::EorPlain => self.data_plain(AluOp::Eor, kept),
            Row::EorsPlain => self.data_setting_plain(AluOp::Eor, kept),
            Row::SubPlain => self.data_plain(AluOp::Sub, kept),
            Row::SubsPlain => self.data_setting_plain(AluOp::Sub, kept),
            Row::RsbPlain => self.data_plain(AluOp::Rsb, kept),
            Row::AddPlain => self.data_plain(AluOp::Add, kept),
            Row::AddsPlain => self.data_setting_plain(AluOp::Add, kept),
            Row::AdcPlain => self.data_plain(AluOp::Adc, kept),
            Row::AdcsPlain => self.data_setting_plain(AluOp::Adc, kept),
            Row::SbcPlain => self.data_plain(AluOp::Sbc, kept),
            Row::SbcsPlain => self.data_setting_plain(AluOp::Sbc, kept),
            Row::TstPlain => self.compare_plain(AluOp::Tst, kept),
            Row::TeqPlain => self.compare_plain(AluOp::Teq, kept),
            Row::CmpPlain => self.compare_plain(AluOp::Cmp, kept),
            Row::CmnPlain => self.compare_plain(AluOp::Cmn, kept),
            Row::OrrPlain => self.data_plain(AluOp::Orr, kept),
            Row::OrrsPlain => self.data_setting_plain(AluOp::Orr, kept),
            Row::MovPlain => self.data_plain(AluOp::Mov, kept),
            Row::MovsPlain => self.data_setting_plain(AluOp::Mov, kept),
            Row::BicPlain => self.data_plain(AluOp::Bic, kept),
            Row::MvnPlain => self.data_plain(AluOp::Mvn, kept),
            Row::AndsShifted => self.data_setting_shifted(AluOp::And, kept),
            Row::SubsShifted => self.data_setting_shifted(AluOp::Sub, kept),
            Row::AddsShifted => self.data_setting_shifted(AluOp::Add, kept),
            Row::TstShifted => self.compare_shifted(AluOp::Tst, kept),
            Row::CmpShifted => self.compare_shifted(AluOp::Cmp, kept),
            Row::OrrsShifted => self.data_setting_shifted(AluOp::Orr, kept),
            Row::MovsShifted => self.data_setting_shifted(AluOp::Mov, kept),
            Row::AndLsl => self.data_lsl(AluOp::And, kept),
            Row::EorLsl => self.data_lsl(AluOp::Eor, kept),
            Row::SubLsl => self.data_lsl(AluOp::Sub, kept),
            Row::RsbLsl => self.data_lsl(AluOp::Rsb, kept),
            Row::AddLsl => self.data_lsl(AluOp::Add, kept),
            Row::OrrLsl => self.data_lsl(AluOp::Orr, kept),
            Row::MovLsl => self.data_lsl(AluOp::Mov, kept),
            Row::BicLsl => self.data_lsl(AluOp::Bic, kept),
            Row::AndLsr => self.data_lsr(AluOp::And, kept),
            Row::EorLsr => self.data_lsr(AluOp::Eor, kept),
            Row::SubLsr => self.data_lsr(AluOp::Sub, kept),
            Row::RsbLsr => self.data_lsr(AluOp::Rsb, kept),
            Row::AddLsr => self.data_lsr(AluOp::Add, kept),
            Row::OrrLsr => self.data_lsr(AluOp::Orr, kept),
            Row::MovLsr => self.data_lsr(AluOp::Mov, kept),
            Row::BicLsr => self.data_lsr(AluOp::Bic, kept),
            Row::AndAsr => self.data_asr(AluOp::And, kept),
            Row::EorAsr => self.data_asr(AluOp::Eor, kept),
            Row::SubAsr => self.data_asr(AluOp::Sub, kept),
            Row::RsbAsr => self.data_asr(AluOp::Rsb, kept),
            Row::AddAsr => self.data_asr(AluOp::Add, kept),
            Row::OrrAsr => self.data_asr(AluOp::Orr, kept),
            Row::MovAsr => self.data_asr(AluOp::Mov, kept),
            Row::BicAsr => self.data_asr(AluOp::Bic, kept),
            Row::AndRor => self.data_ror(AluOp::And, kept),
            Row::EorRor => self.data_ror(AluOp::Eor, kept),
            Row::SubRor => self.data_ror(AluOp::Sub, kept),
            Row::RsbRor => self.data_ror(AluOp::Rsb, kept),
            Row::AddRor => self.data_ror(AluOp::Add, kept),
            Row::OrrRor => self.data_ror(AluOp::Orr, kept),
            Row::MovRor => self.data_ror(AluOp::Mov, kept),
            Row::BicRor => self.data_ror(AluOp::Bic, kept),
            Row::Branch => self.branch_kept(false, kept),
            Row::BranchLink => self.branch_kept(true, kept),
            Row::Ldr => self.load_kept(false, Index::Plain, kept, image, source),
            Row::LdrPre => self.load_kept(false, Index::Pre, kept, image, source),
            Row::LdrPost => self.load_kept(false, Index::Post, kept, image, source),
            Row::Ldrb => self.load_kept(true, Index::Plain, kept, image, source),
            Row::LdrbPre => self.load_kept(true, Index::Pre, kept, image, source),
            Row::LdrbPost => self.load_kept(true, Index::Post, kept, image, source),
            Row::Str => self.store_kept(false, Index::Plain, kept, image, source),
            Row::StrPre => self.store_kept(false, Index::Pre, kept, image, source),
            Row::StrPost => self.store_kept(false, Index::Post, kept, image, source),
            Row::Strb => self.store_kept(true, Index::Plain, kept, image, source),
            Row::StrbPre => self.store_kept(true, Index::Pre, kept, image, source),
            Row::StrbPost => self.store_kept(true, Index::Post, kept, image, source),
            Row::LdrLsl => self.load_added(false, kept, image, source),
            Row::LdrbLsl => self.load_added(true, kept, image, source),
            Row::StrLsl => self.store_added(false, kept, image, source),
            Row::StrbLsl => self.store_added(true, kept, image, source),
            Row::LdrLiteral => self.load_literal(kept, image, source),
            Row::Mul => self.product_kept(kept),
            Row::Mla => self.sum_kept(kept),
            Row::Umull => self.long_kept(LongKind::Umull, kept),
            Row::Umlal => self.long_kept(LongKind::Umlal, kept),
            Row::Smull => self.long_kept(LongKind::Smull, kept),
            Row::Smlal => self.long_kept(LongKind::Smlal, kept),
            Row::BranchEq => self.branch_where(0, kept),
            Row::BranchNe => self.branch_where(1, kept),
            Row::BranchCs => self.branch_where(2, kept),
            Row::BranchCc => self.branch_where(3, kept),
            Row::BranchMi => self.branch_where(4, kept),
            Row::BranchPl => self.branch_where(5, kept),
            Row::BranchVs => self.branch_where(6, kept),
            Row::BranchVc => self.branch_where(7, kept),
            Row::BranchHi => self.branch_where(8, kept),
            Row::BranchLs => self.branch_where(9, kept),
            Row::BranchGe => self.branch_where(10, kept),
            Row::BranchLt => self.branch_where(11, kept),
            Row::BranchGt => self.branch_where(12, kept),
            Row::BranchLe => self.branch_where(13, kept),
            Row::IfEq => self.tries(0),
            Row::IfNe => self.tries(1),
            Row::IfCs => self.tries(2),
            Row::IfCc => self.tries(3),
            Row::IfMi => self.tries(4),
            Row::IfPl => self.tries(5),
            Row::IfVs => self.tries(6),
            Row::IfVc => self.tries(7),
            Row::IfHi => self.tries(8),
            Row::IfLs => self.tries(9),
            Row::IfGe => self.tries(10),
            Row::IfLt => self.tries(11),
            Row::IfGt => self.tries(12),
            Row::IfLe => self.tries(13),
        }
    }

    /// What comes of a kept instruction: where a condition passes, what its row does that tests none. It is a loop, so that the rows
    /// stand in the program once.
    #[inline(always)]
    pub fn come_kept<S: Source>(&mut self, kept: &Kept, image: &Image, source: &mut S) -> Came
        requires kept { is_met_row kept.now.row ≡ true → IsLoweredOf kept.now.lowered.instr kept.now.lowered }
        requires fresh { IsFalse S.RESUMES → self.old.replies ≡ [] }
        requires mem { S.mem source.old ≡ length image.now.bytes }
        requires few { S.counted source.old + 16 ≤ 2 ^ 63 }
        ensures came { HasCome S.replies kept.now.row kept.now.lowered image.now self.old source.old result self.new source.new }
        ensures through { result ≢ Came.Passed }
        ensures mem { S.mem source.new ≡ S.mem source.old }
        ensures counted { S.counted source.new ≤ S.counted source.old + 16 }
    {
        let mut row = kept.row;
        loop {
            match self.come(row, &kept.lowered, image, source) {
                Came::Unmet => return Came::Unmet,
                Came::Next => return Came::Next,
                Came::Jumped => return Came::Jumped,
                Came::Passed => row = kept.lowered.row,
                Came::Held => return Came::Held,
            }
        }
    }

    /// What an instruction does with its operands, its condition passed. The source is asked for the accesses to which it has had no
    /// reply.
    #[inline(always)]
    pub fn act_lowered<S: Source>(
        &mut self,
        lowered: &Lowered,
        image: &Image,
        source: &mut S,
    ) -> Progress
        requires right { IsLoweredOf lowered.now.instr lowered.now }
        requires fresh { IsFalse S.RESUMES → self.old.replies ≡ [] }
        requires mem { S.mem source.old ≡ length image.now.bytes }
        requires few { S.counted source.old + 16 ≤ 2 ^ 63 }
        ensures acted { IsActed S.replies (λ had. acts lowered.now.instr image.now had self.old.state) self.old source.old result self.new source.new }
        ensures mem { S.mem source.new ≡ S.mem source.old }
        ensures counted { S.counted source.new ≤ S.counted source.old + 16 }
    {
        match self.come(lowered.row, lowered, image, source) {
            Came::Next | Came::Jumped => Progress::Complete,
            Came::Held => Progress::Held,
            Came::Unmet | Came::Passed => unreachable!(),
        }
    }
}
