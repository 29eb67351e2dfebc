//! The numbers that stand at the signs of a form as it is shown.
ghost use Rattle.std.specs.Prelude.{◌≡◌, ◌+◌, ◌<◌, ◌≤◌, ◌++◌, ◌∷◌, [], length};

use a32_forms::MOST_NUMBERS;
use a32_instr::Reg;
use arrayvec::ArrayVec;
use std::marker::Model;

/// The numbers at the signs of a form, at most 8, held in place.
#[derive(Drop)]
pub struct Numbers {
    items: ArrayVec<u64, MOST_NUMBERS>,
}

impl Model for Numbers {
    ghost use Rattle.std.specs.Prelude.{List, ℕ};

    ghost Value = { List ℕ };

    ghost view = { λ n. n.items.items };
}

impl Numbers {
    /// No numbers.
    pub fn new() -> Numbers
        ensures { result ≡ [] }
    {
        Numbers {
            items: ArrayVec::new(),
        }
    }

    /// These numbers.
    pub fn of(numbers: &[u64]) -> Numbers
        requires { length numbers.now ≤ 8 }
        ensures { result ≡ numbers.now }
    {
        let mut all = Numbers::new();
        all.extend(numbers);
        all
    }

    /// The numbers of these registers.
    pub fn of_registers(registers: &[Reg]) -> Numbers
        requires { length registers.now ≤ 8 }
        ensures { result ≡ registers.now }
    {
        let mut all = Numbers::new();
        for reg in registers {
            all.push(register(*reg));
        }
        all
    }

    /// Adds a number behind the others.
    pub fn push(&mut self, number: u64)
        requires { length self.old < 8 }
        ensures { self.new ≡ self.old ++ number ∷ [] }
    {
        self.items.push(number);
    }

    /// Adds numbers behind the others.
    pub fn extend(&mut self, more: &[u64])
        requires { length self.old + length more.now ≤ 8 }
        ensures { self.new ≡ self.old ++ more.now }
    {
        let Ok(()) = self.items.try_extend_from_slice(more) else {
            unreachable!()
        };
    }

    /// The numbers in order, at most 8.
    pub fn as_slice(&self) -> &[u64]
        ensures numbers { result.now ≡ self.now }
        ensures most { length result.now ≤ 8 }
    {
        self.items.as_slice()
    }
}

/// A register's number.
pub fn register(reg: Reg) -> u64
    ensures { result ≡ reg }
{
    u64::from(reg.num())
}
