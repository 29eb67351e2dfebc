//! The registers by their numbers.
ghost use Rattle.std.specs.Prelude.{◌≡◌, ◌<◌};

use std::fmt::{self, Debug, Formatter, Write};
use std::marker::Model;

/// One of x0 to x31, by its number.
#[derive(Clone, Copy)]
pub struct RvReg {
    num: u8,
}

impl Model for RvReg {
    ghost use Rattle.std.specs.Prelude.{ℕ, ◌<◌};

    ghost Value = { ℕ };

    ghost view = { λ r. r.num };

    ghost invariant = { λ r. r.num < 32 };

    ghost inverse = { λ n. record { num = n } };
}

impl RvReg {
    /// x0.
    pub const ZERO: RvReg = RvReg { num: 0 };

    /// The register of a number from 0 to 31.
    #[inline(always)]
    pub fn new(num: u8) -> RvReg
        requires { num < 32 }
        ensures { result ≡ num }
    {
        RvReg { num }
    }

    /// The register's number, from 0 to 31.
    #[inline(always)]
    pub fn num(self) -> u8
        ensures value { result ≡ self }
        ensures bound { result < 32 }
    {
        self.num
    }
}

// Its number alone.
impl Debug for RvReg {
    fn fmt<W: Write>(&self, f: &mut Formatter<W>) -> fmt::Result {
        self.num.fmt(f)
    }
}
