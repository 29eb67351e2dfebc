//! How seats are split and joined, and learn that what they have seen is legal.
ghost use Rattle.std.specs.Prelude.{◌≡◌, ◌<◌, ℕ, []};
ghost use Rattle.history.specs.Parts.{entries_of};
ghost use Rattle.shared_memory.specs.Passes.{marked, nobody};
ghost use Rattle.shared_memory.specs.inner.Passes.{alone_mark, joined_view, without_mark};
ghost use Rattle.shared_memory.specs.Seen.{IsOneOf};
ghost use Rattle.version_rule.specs.declared.hands.Doing.TheVariants.{Rest};
ghost use Rattle.version_rule.specs.declared.hands.Reserve.TheVariants.{Nothing};
ghost use Rattle.version_rule.specs.Hands.{hand};
ghost use Rattle.version_rule.specs.inner.Hands.{reserve_joined};
ghost use Rattle.version_memory.specs.Passes.{IsMade};
ghost use Rattle.version_rule.specs.Kept.{origin_of};
ghost use Rattle.shared_memory.specs.Told.{Settles, Vouches};

use atomic_table::{Join, Split};
use shared_memory::{Asks, Gives, Settle, Vouch};
use std::marker::PhantomData;
use version_rule::{VersionSeat, VersionShared, VersionView};

/// A seat gives a number away.
struct Given<J> {
    of: PhantomData<J>,
}

impl<J: Gives> Split<VersionView> for Given<J> {
    ghost use Rattle.shared_memory.specs.inner.Passes.{alone_mark, without_mark};
    ghost use Rattle.version_rule.specs.declared.hands.Doing.TheVariants.{Rest};
    ghost use Rattle.version_rule.specs.declared.hands.Reserve.TheVariants.{Nothing};
    ghost use Rattle.version_rule.specs.Hands.{hand};

    ghost left = { without_mark J.thread J.lead (hand Rest Nothing) };

    ghost right = { alone_mark J.thread (hand Rest Nothing) };
}

/// A seat takes in the numbers of another.
struct Both;

impl Join<VersionView> for Both {
    ghost use Rattle.shared_memory.specs.inner.Passes.{joined_view, spent_view};
    ghost use Rattle.version_rule.specs.declared.hands.Doing.TheVariants.{Rest};
    ghost use Rattle.version_rule.specs.declared.hands.Reserve.TheVariants.{Nothing};
    ghost use Rattle.version_rule.specs.Hands.{hand};
    ghost use Rattle.version_rule.specs.inner.Hands.{reserve_joined};

    ghost both = { λ v w. joined_view (hand Rest (reserve_joined v w)) v w };

    ghost spent = { spent_view (hand Rest Nothing) };
}

/// A seat gives a number away before any of its numbers has an entry, and another of its numbers leads it.
pub fn split_number<J: Gives>(
    shared: &VersionShared,
    seat: &mut VersionSeat,
    t: u32,
    lead: u32,
) -> VersionSeat
    requires gives { (J.thread ≡ t) × (J.lead ≡ lead) }
    requires made { IsMade shared.now.key shared.now.table_id }
    requires home { seat.old.table_id ≡ shared.now.table_id }
    requires rest { seat.old.me.0.doing.doing ≡ Rest }
    requires whole { (seat.old.me.0.left ≡ nobody) × (seat.old.me.0.right ≡ nobody) }
    requires has { IsOneOf t (marked seat.old.me.0.numbers) }
    requires fresh { (u : ℕ) → IsOneOf u (marked seat.old.me.0.numbers) → entries_of u seat.old.me.0.seen ≡ [] }
    ensures rest { seat.new.me ≡ (without_mark t lead (hand Rest Nothing) seat.old.me.0, seat.old.me.1) }
    ensures given { result.me ≡ (alone_mark t (hand Rest Nothing) seat.old.me.0, []) }
    ensures home { (seat.new.table_id ≡ seat.old.table_id) × (result.table_id ≡ seat.old.table_id) }
{
    shared.split_seat::<Given<J>>(seat)
}

/// A seat takes in another, and learns what it had seen.
pub fn join_numbers(shared: &VersionShared, seat: &mut VersionSeat, other: VersionSeat)
    requires made { IsMade shared.now.key shared.now.table_id }
    requires home { (seat.old.table_id ≡ shared.now.table_id) × (other.table_id ≡ shared.now.table_id) }
    requires rest { (seat.old.me.0.doing.doing ≡ Rest) × (other.me.0.doing.doing ≡ Rest) }
    requires leads { IsOneOf seat.old.me.0.lead (marked seat.old.me.0.numbers) × IsOneOf other.me.0.lead (marked other.me.0.numbers) }
    requires slots { other.me.1 ≡ [] }
    ensures both { Settles
        (joined_view (hand Rest (reserve_joined seat.old.me.0 other.me.0)) seat.old.me.0 other.me.0, seat.old.me.1) seat.new.me }
    ensures home { seat.new.table_id ≡ seat.old.table_id }
{
    shared.join_seat::<Both>(seat, other);
    shared.load::<Settle>(seat, 0);
}

/// A seat learns that what it has seen is legal.
pub fn vouch_for<J: Asks>(shared: &VersionShared, seat: &mut VersionSeat)
    requires asked { J.ask.origin ≡ origin_of shared.now.key }
    requires made { IsMade shared.now.key shared.now.table_id }
    requires home { seat.old.table_id ≡ shared.now.table_id }
    ensures vouched { Vouches (origin_of shared.now.key) seat.old.me seat.new.me }
    ensures home { seat.new.table_id ≡ seat.old.table_id }
{
    shared.load::<Vouch<J>>(seat, 0);
}
