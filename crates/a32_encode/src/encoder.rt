//! The word of an instruction.
ghost use Rattle.std.specs.Prelude.{◌≡◌, ◌<◌, ◌^◌, ℕ, Some, None};
ghost use Rattle.std.specs.Result.{IfOk};
ghost use Rattle.a32_instr.specs.Table.{table, meaning};
ghost use Rattle.a32_encode.specs.Encoding.{encoding_of};
ghost use Rattle.a32_encode.specs.Faults.{encode_fault_name};

use crate::words::candidate;
use a32_decode::decode;
use a32_instr::Instr;
use thiserror::Error;

/// Why an instruction has no word.
#[derive(Clone, Copy, Debug, PartialEq, Eq, Error)]
pub enum EncodeFault {
    /// No word means the instruction.
    #[error("the instruction has no word")]
    NoEncoding,
}

impl EncodeFault {
    /// The variant's name.
    pub fn name(&self) -> &str
        ensures { result.now ≡ encode_fault_name self.now }
    {
        match self {
            EncodeFault::NoEncoding => "NoEncoding",
        }
    }
}

/// The word of an instruction, the only one that the table of words gives it.
///
/// # Errors
///
/// `NoEncoding` exactly where no word means the instruction: at a field that its bits cannot hold, and at fields that
/// together are no instruction or an unpredictable one.
pub fn encode(i: &Instr) -> Result<u32, EncodeFault>
    ensures word { IfOk result (λ w. (w < 2 ^ 32) × (meaning table w ≡ Ok i.now)) }
    ensures only { IfOk result (λ w. (other : ℕ) → other < 2 ^ 32 → meaning table other ≡ Ok i.now → other ≡ w) }
    ensures none { result ≡ Err EncodeFault.NoEncoding → (other : ℕ) → other < 2 ^ 32 → meaning table other ≡ Ok i.now → ⊥ }
    ensures encoding { IfOk result (λ w. encoding_of i.now ≡ Some w) }
    ensures no_encoding { result ≡ Err EncodeFault.NoEncoding → encoding_of i.now ≡ None }
{
    let sum = candidate(*i);
    if sum > 0xffff_ffff {
        return Err(EncodeFault::NoEncoding);
    }
    let word = sum as u32;
    match decode(word) {
        Ok(meant) if meant == *i => Ok(word),
        _ => Err(EncodeFault::NoEncoding),
    }
}
