//! Registers that aren't the PC.
ghost use Rattle.std.specs.Prelude.{◌≡◌, ◌<◌, IfSome, IfNone};

use a32_instr::Reg;
use std::marker::Model;

/// One of r0 to r14, by its number.
#[derive(Clone, Copy)]
pub struct Low {
    num: u8,
}

impl Model for Low {
    ghost use Rattle.std.specs.Prelude.{ℕ, ◌<◌};

    ghost Value = { ℕ };

    ghost view = { λ r. r.num };

    ghost invariant = { λ r. r.num < 15 };

    ghost inverse = { λ n. record { num = n } };
}

impl Low {
    /// r0.
    pub const FIRST: Low = Low { num: 0 };

    /// A register that isn't the PC.
    pub fn of(r: Reg) -> Option<Low>
        ensures low { IfSome result (λ low. low ≡ r) }
        ensures bound { IfSome result (λ low. r < 15) }
        ensures pc { IfNone result (r ≡ 15) }
    {
        let num = r.num();
        if num == 15 {
            return None;
        }
        Some(Low { num })
    }

    /// The register's number, from 0 to 14.
    #[inline(always)]
    pub fn num(self) -> u8
        ensures value { result ≡ self }
        ensures bound { result < 15 }
    {
        self.num
    }
}
