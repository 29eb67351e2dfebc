//! Memory as all threads have left it, while it stays.
ghost use Rattle.std.specs.Prelude.{◌≡◌, ◌+◌, ◌*◌, ◌<◌, ◌≤◌, ℕ};
ghost use Rattle.llsc_base.specs.Memory.{cell_of};
ghost use Rattle.shared_memory.specs.Layout.{cell_word};
ghost use Rattle.shared_memory.specs.Passes.{marked};
ghost use Rattle.shared_memory.specs.Seen.{IsOneOf};
ghost use Rattle.shared_memory.specs.inner.Targets.{IsPlace};
ghost use Rattle.shared_memory.specs.inner.Told.{ask};
ghost use Rattle.version_rule.specs.declared.hands.Doing.TheVariants.{Rest};
ghost use Rattle.version_rule.specs.Kept.{origin_of};
ghost use Rattle.version_rule.specs.Left.{IsOver, cell_left};
ghost use Rattle.version_rule.specs.Told.{HasFoundLeft};
ghost use Rattle.version_memory.specs.Memory.{memory_id, memory_origin, pass_home, pass_numbers, pass_seen};
ghost use Rattle.version_memory.specs.Passes.{IsMade};

use crate::memory::VersionMemory;
use crate::passes::VersionPass;
use llsc_base::{Place, Size};
use shared_memory::{Asks, word_of_cell};
use std::marker::Brand;
use version_rule::{LookAtLeft, VersionSeat, VersionShared};

/// The cell of a place, looked at by the seat that holds every number.
fn look_at_left<J: Asks>(
    shared: &VersionShared,
    seat: &mut VersionSeat,
    place: Place,
    word: usize,
) -> u64
    requires asked { J.ask ≡ ask (origin_of shared.now.key) place 0 }
    requires made { IsMade shared.now.key shared.now.table_id }
    requires home { seat.old.table_id ≡ shared.now.table_id }
    requires all { (t : ℕ) → t < shared.now.key.size.threads → IsOneOf t (marked seat.old.me.0.numbers) }
    requires rest { seat.old.me.0.doing.doing ≡ Rest }
    requires place { IsPlace shared.now.key place }
    requires word { word ≡ cell_word shared.now.key.size (cell_of place) }
    ensures found { HasFoundLeft (ask (origin_of shared.now.key) place 0) seat.old.me result seat.new.me }
    ensures home { seat.new.table_id ≡ seat.old.table_id }
{
    shared.load::<LookAtLeft<J>>(seat, word)
}

impl VersionMemory {
    /// A cell as all threads have left it, once a pass holds all of their numbers: the eight bytes from eight times its number
    /// up, the first the least significant. Nobody adds to the history then, and this doesn't either.
    pub fn cell_left(&self, pass: &mut VersionPass, cell: u32) -> u64
        requires memory { pass_home pass.old ≡ memory_id self.now }
        requires all { (t : ℕ) → t < (memory_origin self.now).size.threads → IsOneOf t (pass_numbers pass.old) }
        requires inside { 8 * cell + 8 ≤ (memory_origin self.now).size.mem }
        ensures over { IsOver (memory_origin self.now) (pass_seen pass.old) }
        ensures cell { result ≡ cell_left (memory_origin self.now) (pass_seen pass.old) cell }
        ensures memory { pass_home pass.new ≡ pass_home pass.old }
        ensures numbers { pass_numbers pass.new ≡ pass_numbers pass.old }
        ensures seen { pass_seen pass.new ≡ pass_seen pass.old }
    {
        let mem = self.size.mem();
        prove!(cell < mem / 8);
        let place = Place {
            addr: 8 * cell,
            size: Size::B8,
        };
        let word = word_of_cell(&self.size, place);
        look_at_left::<Brand>(&self.table.shared, &mut pass.seat, place, word)
    }
}
