//! Amounts by which registers are shifted.
ghost use Rattle.std.specs.Prelude.{◌≡◌, ◌<◌, IfSome};

use std::marker::Model;

/// An amount from 0 to 31.
#[derive(Clone, Copy)]
pub struct Amount {
    num: u8,
}

impl Model for Amount {
    ghost use Rattle.std.specs.Prelude.{ℕ, ◌<◌};

    ghost Value = { ℕ };

    ghost view = { λ amount. amount.num };

    ghost invariant = { λ amount. amount.num < 32 };

    ghost inverse = { λ n. record { num = n } };
}

impl Amount {
    /// No shift.
    pub const NONE: Amount = Amount { num: 0 };

    /// An amount, if it is below 32.
    pub fn of(num: u8) -> Option<Amount>
        ensures { IfSome result (λ amount. amount ≡ num) }
    {
        if num >= 32 {
            return None;
        }
        Some(Amount { num })
    }

    /// The amount as a number, from 0 to 31.
    #[inline(always)]
    pub fn num(self) -> u8
        ensures value { result ≡ self }
        ensures bound { result < 32 }
    {
        self.num
    }
}
