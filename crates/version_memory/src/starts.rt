//! The steps by which a thread is started, and by which a started thread waits for that.
ghost use Rattle.std.specs.Prelude.{◌≡◌, ◌<◌, [], true};
ghost use Rattle.std.specs.Bool.{OnTrue};
ghost use Rattle.history.specs.Operation.{entries_of_operation, start};
ghost use Rattle.history.specs.Started.{child_of, is_started, starts_of};
ghost use Rattle.shared_memory.specs.Told.{Goes};
ghost use Rattle.version_rule.specs.declared.hands.Doing.TheVariants.{Rest};
ghost use Rattle.version_rule.specs.Kept.{origin_of};
ghost use Rattle.version_rule.specs.StartWords.{start_word};
ghost use Rattle.version_rule.specs.inner.Told.{birth};
ghost use Rattle.version_memory.specs.inner.Passes.{MayAwait, MayStep};

use crossbeam_utils::Backoff;
use shared_memory::Asks;
use std::sync::Wait;
use version_rule::{Births, Know, LookAtStart, StartChild, VersionSeat, VersionShared};

/// A thread starts the next of those that are its own, at an address and with an argument.
pub fn start_child<J: Births>(
    shared: &VersionShared,
    seat: &mut VersionSeat,
    child: u32,
    word: usize,
    entry: u32,
    arg: u32,
)
    requires born { J.birth ≡ birth (origin_of shared.now.key) child entry arg }
    requires ready { MayStep shared.now seat.old }
    requires rest { seat.old.me.0.doing.doing ≡ Rest }
    requires first { seat.old.me.0.lead < shared.now.key.first }
    requires few { starts_of seat.old.me.0.lead seat.old.me.0.seen < shared.now.key.spare }
    requires child { child ≡ child_of shared.now.key.first shared.now.key.spare seat.old.me.0.lead
        (starts_of seat.old.me.0.lead seat.old.me.0.seen) }
    requires word { word ≡ start_word shared.now.key child }
    ensures goes { Goes (origin_of shared.now.key) seat.old.me (entries_of_operation seat.old.me.0.lead (start child entry arg))
        seat.old.me.0.doing seat.new.me }
    ensures home { seat.new.table_id ≡ seat.old.table_id }
{
    shared.store::<StartChild<J>>(seat, word, 1);
}

/// A seat learns that its thread is one of the machine's.
fn know_own<J: Asks>(shared: &VersionShared, seat: &mut VersionSeat)
    requires asked { J.ask.origin ≡ origin_of shared.now.key }
    requires awaiting { MayAwait shared.now seat.old }
    ensures goes { Goes (origin_of shared.now.key) seat.old.me [] seat.old.me.0.doing seat.new.me }
    ensures below { seat.new.me.0.lead < shared.now.key.size.threads }
    ensures awaiting { MayAwait shared.now seat.new }
    ensures home { seat.new.table_id ≡ seat.old.table_id }
{
    shared.load::<Know<J>>(seat, 0);
}

/// Whether the thread was started.
fn look_at_start<J: Asks>(shared: &VersionShared, seat: &mut VersionSeat, word: usize) -> bool
    requires asked { J.ask.origin ≡ origin_of shared.now.key }
    requires awaiting { MayAwait shared.now seat.old }
    requires below { seat.old.me.0.lead < shared.now.key.size.threads }
    requires word { word ≡ start_word shared.now.key seat.old.me.0.lead }
    ensures goes { Goes (origin_of shared.now.key) seat.old.me [] seat.old.me.0.doing seat.new.me }
    ensures started { OnTrue result (is_started seat.old.me.0.lead seat.new.me.0.seen ≡ true) }
    ensures awaiting { MayAwait shared.now seat.new }
    ensures home { seat.new.table_id ≡ seat.old.table_id }
{
    shared.load::<LookAtStart<J>>(seat, word) == 1
}

/// A thread waits until it was started.
pub fn wait_for_start<R: Wait, J: Asks>(
    rt: &R,
    shared: &VersionShared,
    seat: &mut VersionSeat,
    word: usize,
)
    requires asked { J.ask.origin ≡ origin_of shared.now.key }
    requires awaiting { MayAwait shared.now seat.old }
    requires word { word ≡ start_word shared.now.key seat.old.me.0.lead }
    ensures goes { Goes (origin_of shared.now.key) seat.old.me [] seat.old.me.0.doing seat.new.me }
    ensures started { is_started seat.old.me.0.lead seat.new.me.0.seen ≡ true }
    ensures home { seat.new.table_id ≡ seat.old.table_id }
{
    know_own::<J>(shared, seat);
    let backoff = Backoff::new();
    for _ in rt.forever() {
        if look_at_start::<J>(shared, seat, word) {
            return;
        }
        backoff.snooze();
    }
    unreachable!()
}
