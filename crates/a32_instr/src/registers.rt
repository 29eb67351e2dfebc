//! The core registers.
ghost use Rattle.std.specs.Prelude.{◌≡◌, ◌<◌};

use std::marker::Model;

/// A core register by its number: r0 to r12, 13 is sp, 14 lr and 15 pc (DDI 0406C A2.3).
#[derive(Clone, Copy, Debug, PartialEq, Eq)]
pub struct Reg {
    num: u8,
}

impl Model for Reg {
    ghost use Rattle.std.specs.Prelude.{ℕ, ◌<◌};

    ghost Value = { ℕ };

    ghost view = { λ r. r.num };

    ghost invariant = { λ r. r.num < 16 };

    ghost inverse = { λ n. record { num = n } };
}

impl Reg {
    /// The register of a number from 0 to 15.
    pub fn new(num: u8) -> Reg
        requires { num < 16 }
        ensures { result ≡ num }
    {
        Reg { num }
    }

    /// The register's number, from 0 to 15.
    pub fn num(self) -> u8
        ensures value { result ≡ self }
        ensures bound { result < 16 }
    {
        self.num
    }
}
