//! The rule of the table.
use crate::hands::HstView;
use atomic_table::{Seat, Shared, Table, TableRule};
use shared_memory::Plan;
use std::alloc::Global;

/// Names and a section: word 0 is the number of stores inside, or says that one thread is inside alone, the words behind it
/// are the tags of the classes, each 0 or one more than the thread that last came to the class, and then come the cells.
pub struct HstRule;

impl TableRule<(), HstView, Plan> for HstRule {
    ghost use Rattle.hst_memory.specs.inner.Hands.{hand};
    ghost use Rattle.hst_memory.specs.inner.Kept.{KeptBy};
    ghost use Rattle.shared_memory.specs.Passes.{first_view};
    ghost use Rattle.hst_memory.specs.declared.hands.Doing.TheVariants.{Rest};
    ghost use Rattle.hst_memory.specs.declared.hands.Reserve.TheVariants.{Nothing};

    ghost holds = { KeptBy };

    ghost first = { λ plan. first_view plan.size.threads (hand Rest Nothing) };
}

pub type HstTable = Table<(), HstView, Plan, HstRule, Global>;

pub type HstShared = Shared<(), HstView, Plan, HstRule>;

pub type HstSeat = Seat<(), HstView>;
