//! Why there is no guest.
ghost use Rattle.std.specs.Prelude.{◌≡◌};
ghost use Rattle.guest_gen.specs.Counters.{gen_fault_name};

use thiserror::Error;

/// Why numbers give no guest.
#[derive(Clone, Copy, Debug, PartialEq, Eq, Error)]
pub enum GenFault {
    /// The threads are not 1 to 16, or the rounds not 1 to 50,000.
    #[error("the threads are not 1 to 16, or the rounds not 1 to 50000")]
    Range,
    /// Want of memory.
    #[error("out of memory")]
    Memory,
}

impl GenFault {
    /// The variant's name.
    pub fn name(&self) -> &str
        ensures { result.now ≡ gen_fault_name self.now }
    {
        match self {
            GenFault::Range => "Range",
            GenFault::Memory => "Memory",
        }
    }
}
