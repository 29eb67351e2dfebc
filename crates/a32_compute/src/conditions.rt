//! Whether the flags meet a condition.
ghost use Rattle.std.specs.Prelude.{◌≡◌};
ghost use Rattle.a32_instr.specs.Condition.{passes};

use a32_instr::{Cond, Flags};

/// Whether the flags meet a condition (DDI 0406C A8.3, table A8-1).
#[tactic(auto, unfolding(a32_instr::specs::Condition::passes))]
pub fn passes(cond: Cond, flags: Flags) -> bool
    ensures { result ≡ passes cond flags }
{
    match cond.num() {
        0 => flags.z,
        1 => !flags.z,
        2 => flags.c,
        3 => !flags.c,
        4 => flags.n,
        5 => !flags.n,
        6 => flags.v,
        7 => !flags.v,
        8 => flags.c && !flags.z,
        9 => !flags.c || flags.z,
        10 => flags.n == flags.v,
        11 => flags.n != flags.v,
        12 => !flags.z && flags.n == flags.v,
        13 => flags.z || flags.n != flags.v,
        _ => true,
    }
}
