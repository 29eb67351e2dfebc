//! Why a word is no instruction.
ghost use Rattle.std.specs.Prelude.{◌≡◌};
ghost use Rattle.llsc_base.specs.Effects.{undecoded};
ghost use Rattle.llsc_base.specs.Faults.{decode_fault_name};

use crate::outside::Stop;
use thiserror::Error;

/// Why a word is no instruction.
#[derive(Clone, Copy, Debug, PartialEq, Eq, Error)]
pub enum DecodeFault {
    /// The word fits no row of its table.
    #[error("the word is no instruction")]
    Undefined,
    /// The word fits a row at which it is unpredictable.
    #[error("the word is an unpredictable instruction")]
    Unpredictable,
}

impl DecodeFault {
    /// The variant's name.
    pub fn name(&self) -> &str
        ensures { result.now ≡ decode_fault_name self.now }
    {
        match self {
            DecodeFault::Undefined => "Undefined",
            DecodeFault::Unpredictable => "Unpredictable",
        }
    }

    /// The stop of a thread at such a word, which stands at this address.
    pub fn stop_at(self, addr: u32) -> Stop
        ensures { result ≡ undecoded self addr }
    {
        match self {
            DecodeFault::Undefined => Stop::Undefined(addr),
            DecodeFault::Unpredictable => Stop::Unpredictable(addr),
        }
    }
}
