//! The rule of the table.
use crate::hands::VersionView;
use atomic_table::{Seat, Shared, Table, TableRule};
use shared_memory::Plan;
use std::alloc::Global;

/// Versions: word 0 is 0, the words behind it are the tags of the classes, each twice the writes of the class that are over,
/// and one more while one of them is in flight, and then come the cells. Behind them each thread that doesn't begin by itself
/// has a word, which is 1 once the thread was started, and 0 before.
pub struct VersionRule;

impl TableRule<(), VersionView, Plan> for VersionRule {
    ghost use Rattle.version_rule.specs.Hands.{hand};
    ghost use Rattle.version_rule.specs.Kept.{KeptBy};
    ghost use Rattle.shared_memory.specs.Passes.{first_view};
    ghost use Rattle.version_rule.specs.declared.hands.Doing.TheVariants.{Rest};
    ghost use Rattle.version_rule.specs.declared.hands.Reserve.TheVariants.{Nothing};

    ghost holds = { KeptBy };

    ghost first = { λ plan. first_view plan.size.threads (hand Rest Nothing) };
}

pub type VersionTable = Table<(), VersionView, Plan, VersionRule, Global>;

pub type VersionShared = Shared<(), VersionView, Plan, VersionRule>;

pub type VersionSeat = Seat<(), VersionView>;
