//! Multiplications (DDI 0406C A5.2.5).
ghost use Rattle.std.specs.Prelude.{◌≡◌, ◌+◌, if◌then◌else◌, false};
ghost use Rattle.a32_instr.specs.Multiply.{joined, multiplied, multiplies, multiplies_and_adds, multiplies_and_subtracts, multiplies_long, after_long};
ghost use Rattle.a32_instr.specs.State.{register, with_register};
ghost use Rattle.llsc_base.specs.Words.{low32};
ghost use Rattle.a32_step.specs.inner.Progress.{progress_of};
ghost use Rattle.a32_step.specs.inner.ExecutionState.{moves};

use super::Execution;
use crate::low::Low;
use crate::lowered::Lowered;
use crate::phases::{Came, Progress};
use a32_compute::parts::low_word;
use a32_compute::products::{minus_product, product, product_plus, wide};
use a32_compute::shifts::is_negative;
use a32_instr::{Flags, LongKind, Reg};

/// The flags of a product.
#[inline(always)]
fn flags_of_product(negative: bool, zero: bool, flags: Flags) -> Flags
    ensures { result ≡ record flags { n = negative; z = zero } }
{
    Flags {
        n: negative,
        z: zero,
        c: flags.c,
        v: flags.v,
    }
}

impl Execution {
    /// The flags after a product, if the instruction sets them.
    fn after_product(&self, sets: bool, negative: bool, zero: bool) -> Flags
        ensures { result ≡ (if sets then record self.now.state.flags { n = negative; z = zero } else self.now.state.flags) }
    {
        if sets {
            flags_of_product(negative, zero, self.flags)
        } else {
            self.flags
        }
    }

    /// The instruction is complete with a product, and with its flags if it sets them.
    fn write_product(&mut self, sets: bool, rd: Reg, value: u32) -> Progress
        ensures progress { result ≡ progress_of (multiplied sets rd value self.old.state) }
        ensures state { self.new ≡ moves self.old (multiplied sets rd value self.old.state) }
    {
        let flags = self.after_product(sets, is_negative(value), value == 0);
        self.write(flags, rd, value)
    }

    /// MUL (DDI 0406C A8.8.114).
    pub(super) fn multiply(&mut self, sets: bool, rd: Reg, rn: Reg, rm: Reg) -> Progress
        ensures progress { result ≡ progress_of (multiplies sets rd rn rm self.old.state) }
        ensures state { self.new ≡ moves self.old (multiplies sets rd rn rm self.old.state) }
    {
        let value = product(self.operand(rn), self.operand(rm));
        self.write_product(sets, rd, value)
    }

    /// MLA (DDI 0406C A8.8.100).
    pub(super) fn multiply_and_add(
        &mut self,
        sets: bool,
        rd: Reg,
        rn: Reg,
        rm: Reg,
        ra: Reg,
    ) -> Progress
        ensures progress { result ≡ progress_of (multiplies_and_adds sets rd rn rm ra self.old.state) }
        ensures state { self.new ≡ moves self.old (multiplies_and_adds sets rd rn rm ra self.old.state) }
    {
        let value = product_plus(self.operand(rn), self.operand(rm), self.operand(ra));
        self.write_product(sets, rd, value)
    }

    /// MLS (DDI 0406C A8.8.101).
    pub(super) fn multiply_and_subtract(&mut self, rd: Reg, rn: Reg, rm: Reg, ra: Reg) -> Progress
        ensures progress { result ≡ progress_of (multiplies_and_subtracts rd rn rm ra self.old.state) }
        ensures state { self.new ≡ moves self.old (multiplies_and_subtracts rd rn rm ra self.old.state) }
    {
        let value = minus_product(self.operand(ra), self.operand(rn), self.operand(rm));
        self.write(self.flags, rd, value)
    }

    /// Two registers as one number of 64 bits.
    fn pair(&self, hi: Reg, lo: Reg) -> u64
        ensures pair { result ≡ joined self.now.state hi lo }
    {
        u64::from(self.operand(hi)) * 0x1_0000_0000 + u64::from(self.operand(lo))
    }

    /// UMULL, UMLAL, SMULL and SMLAL (DDI 0406C A8.8.257, A8.8.256, A8.8.189, A8.8.178).
    pub(super) fn multiply_long(
        &mut self,
        kind: LongKind,
        sets: bool,
        lo: Reg,
        hi: Reg,
        rn: Reg,
        rm: Reg,
    ) -> Progress
        ensures progress { result ≡ Progress.Complete }
        ensures state { self.new ≡ record self.old { state = after_long kind sets lo hi rn rm self.old.state } }
    {
        let old = self.pair(hi, lo);
        let value = wide(kind, self.operand(rn), self.operand(rm), old);
        self.flags = self.after_product(sets, value >= 1 << 63, value == 0);
        self.set(lo, low_word(value));
        self.set(hi, (value >> 32) as u32);
        self.advance()
    }

    /// One of r0 to r14 as an operand.
    #[inline(always)]
    fn low(&self, r: Low) -> u32
        ensures { result ≡ register self.now.state r }
    {
        self.regs[r.num() as usize]
    }

    /// One of r0 to r14 set to a value.
    #[inline(always)]
    #[tactic(auto, using(llsc_base::proofs::Words::words_set))]
    fn set_low(&mut self, r: Low, value: u32)
        ensures { self.new ≡ record self.old { state = with_register self.old.state r value } }
    {
        self.regs[r.num() as usize] = value;
    }

    /// MUL that sets no flags, of r0 to r14.
    #[inline(always)]
    pub(super) fn product_kept(&mut self, kept: &Lowered) -> Came
        ensures came { result ≡ Came.Next }
        ensures full { progress_of (multiplies false kept.now.d kept.now.n kept.now.m self.old.state) ≡ Progress.Complete }
        ensures state { self.new ≡ moves self.old (multiplies false kept.now.d kept.now.n kept.now.m self.old.state) }
        ensures next { self.new.state.pc ≡ low32 (self.old.state.pc + 4) }
    {
        let value = product(self.low(kept.n), self.low(kept.m));
        self.put(kept.d, value)
    }

    /// MLA that sets no flags, of r0 to r14.
    #[inline(always)]
    pub(super) fn sum_kept(&mut self, kept: &Lowered) -> Came
        ensures came { result ≡ Came.Next }
        ensures full { progress_of (multiplies_and_adds false kept.now.d kept.now.n kept.now.m kept.now.a self.old.state) ≡ Progress.Complete }
        ensures state { self.new ≡ moves self.old (multiplies_and_adds false kept.now.d kept.now.n kept.now.m kept.now.a self.old.state) }
        ensures next { self.new.state.pc ≡ low32 (self.old.state.pc + 4) }
    {
        let value = product_plus(self.low(kept.n), self.low(kept.m), self.low(kept.a));
        self.put(kept.d, value)
    }

    /// UMULL, UMLAL, SMULL and SMLAL that set no flags, of r0 to r14.
    #[inline(always)]
    pub(super) fn long_kept(&mut self, kind: LongKind, kept: &Lowered) -> Came
        ensures came { result ≡ Came.Next }
        ensures full { progress_of (multiplies_long kind false kept.now.d kept.now.a kept.now.n kept.now.m self.old.state) ≡ Progress.Complete }
        ensures state { self.new ≡ moves self.old (multiplies_long kind false kept.now.d kept.now.a kept.now.n kept.now.m self.old.state) }
        ensures next { self.new.state.pc ≡ low32 (self.old.state.pc + 4) }
    {
        let old = u64::from(self.low(kept.a)) * 0x1_0000_0000 + u64::from(self.low(kept.d));
        let value = wide(kind, self.low(kept.n), self.low(kept.m), old);
        self.set_low(kept.d, low_word(value));
        self.set_low(kept.a, (value >> 32) as u32);
        self.go_next()
    }
}
