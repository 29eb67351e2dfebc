//! What arithmetic gives: a value with its carry and overflow, or with flags.
use crate::conditions::Flags;

/// A sum of 32 bits: its value, whether the unsigned sum is at least 2 to the 32, and whether the
/// signed sum is out of its range (DDI 0406C A2.2.1).
#[derive(Clone, Copy, Debug, PartialEq, Eq)]
pub struct Sum {
    pub value: u32,
    pub carry: bool,
    pub overflow: bool,
}

/// A shifted value, and the shifter's carry (DDI 0406C A8.4).
#[derive(Clone, Copy, Debug, PartialEq, Eq)]
pub struct Shifted {
    pub value: u32,
    pub carry: bool,
}

/// The result of a data-processing operation, and the flags that it sets (DDI 0406C A5.2).
#[derive(Clone, Copy, Debug, PartialEq, Eq)]
pub struct Computed {
    pub value: u32,
    pub flags: Flags,
}
