//! How a call says which number a seat gives away.
ghost use Rattle.std.specs.Prelude.{ℕ};

use std::marker::Brand;

/// Which number a seat gives away, and which of the others leads it from then on: a call picks them.
pub trait Gives {
    ghost thread: { ℕ };

    ghost lead: { ℕ };
}

impl Gives for Brand {
    ghost thread = { 0 };

    ghost lead = { 0 };
}
