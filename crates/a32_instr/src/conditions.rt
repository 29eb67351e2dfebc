//! The condition flags, and the condition codes.
ghost use Rattle.std.specs.Prelude.{◌≡◌, ◌<◌};

use std::marker::Model;

/// The condition flags: negative, zero, carry, overflow (DDI 0406C A2.4).
#[derive(Clone, Copy, Debug, PartialEq, Eq)]
pub struct Flags {
    pub n: bool,
    pub z: bool,
    pub c: bool,
    pub v: bool,
}

/// A condition code by its number, from 0 to 14: EQ NE CS CC MI PL VS VC HI LS GE LT GT LE AL
/// (DDI 0406C A8.3).
#[derive(Clone, Copy, Debug, PartialEq, Eq)]
pub struct Cond {
    num: u8,
}

impl Model for Cond {
    ghost use Rattle.std.specs.Prelude.{ℕ, ◌<◌};

    ghost Value = { ℕ };

    ghost view = { λ c. c.num };

    ghost invariant = { λ c. c.num < 15 };

    ghost inverse = { λ n. record { num = n } };
}

impl Cond {
    /// The condition that always holds (AL).
    pub const ALWAYS: Cond = Cond { num: 14 };

    /// The condition of a number from 0 to 14.
    pub fn new(num: u8) -> Cond
        requires { num < 15 }
        ensures { result ≡ num }
    {
        Cond { num }
    }

    /// The condition's number, from 0 to 14.
    pub fn num(self) -> u8
        ensures value { result ≡ self }
        ensures bound { result < 15 }
    {
        self.num
    }
}
