//! The queue of the guests that wait, and what each call on it does by its rule.
ghost use Rattle.std.specs.Prelude.{◌≡◌};

use crate::views::{Hand, Key};
use a32_step::Cpu;
use crossbeam_queue::protocol::{Join, Lesson, Outcome, Protocol, Split};
use crossbeam_queue::{Pass, RuledArrayQueue};
use guest_thread::Part;
use shared_memory::SharedMemory;
use std::marker::{Brand, PhantomData};

/// A guest between two of its slices: its number, and how many slices it has run.
#[derive(Drop)]
pub struct Waiting<P> {
    pub part: Part<P, Cpu>,
    pub thread: u32,
    pub turns: u64,
}

/// The rule of the queue.
pub struct Turns<M> {
    memory: PhantomData<M>,
}

impl<M: SharedMemory> Protocol<Waiting<M::Pass>, Hand> for Turns<M> {
    ghost use Rattle.std.specs.Prelude.{[]};
    ghost use Rattle.slice_pool.specs.Hands.{hand, no_key};
    ghost use Rattle.slice_pool.specs.inner.Rule.{Keeps};

    ghost holds = { Keeps M.home M.numbers M.seen };

    ghost first = { hand 8 [] no_key };
}

/// What a pool's guests run by, as a call of `run_pool` picks it.
pub(crate) trait Knows {
    ghost use Rattle.slice_pool.specs.declared.views.Key.{Key};

    ghost key: { Key };
}

impl Knows for Brand {
    ghost use Rattle.slice_pool.specs.Hands.{no_key};

    ghost key = { no_key };
}

/// All guests are at their start, and the one seat holds them.
pub(crate) struct Begin<K> {
    key: PhantomData<K>,
}

impl<K: Knows> Split<Hand> for Begin<K> {
    ghost use Rattle.std.specs.Prelude.{[]};
    ghost use Rattle.slice_pool.specs.Hands.{downto, hand, no_key};

    ghost left = { λ v. hand 8 (downto K.key.size.threads) K.key };

    ghost right = { λ v. hand 0 [] no_key };
}

/// A seat gives one of its parts to a new one, or takes in another.
pub(crate) struct Cut;

impl Split<Hand> for Cut {
    ghost use Rattle.std.specs.Prelude.{◌-◌, []};
    ghost use Rattle.slice_pool.specs.Hands.{hand};

    ghost left = { λ v. hand (v.parts - 1) v.held v.key };

    ghost right = { λ v. hand 1 [] v.key };
}

impl Join<Hand> for Cut {
    ghost use Rattle.std.specs.Prelude.{◌+◌, ◌++◌, []};
    ghost use Rattle.slice_pool.specs.Hands.{hand, no_key};

    ghost both = { λ v w. hand (v.parts + w.parts) (v.held ++ w.held) v.key };

    ghost spent = { hand 0 [] no_key };
}

/// The guest that a seat came to last goes into the queue.
pub(crate) struct Puts;

impl<P> Outcome<Waiting<P>, Hand> for Puts {
    ghost use Rattle.std.specs.Prelude.{◌≡◌, drop};
    ghost use Rattle.slice_pool.specs.Hands.{hand};

    ghost then = { λ v x w. w ≡ hand v.parts (drop 1 v.held) v.key };
}

impl<P> Lesson<Waiting<P>, Hand> for Puts {
    ghost use Rattle.std.specs.Prelude.{⊤};

    ghost fact = { λ v items. ⊤ };
}

/// A guest comes out of the queue, under way; a seat that has all parts knows which are left.
pub(crate) struct Takes<M> {
    memory: PhantomData<M>,
}

impl<M: SharedMemory> Outcome<Waiting<M::Pass>, Hand> for Takes<M> {
    ghost use Rattle.slice_pool.specs.inner.Rule.{HasTaken};

    ghost then = { HasTaken M.home M.numbers M.seen };
}

impl<M: SharedMemory> Lesson<Waiting<M::Pass>, Hand> for Takes<M> {
    ghost use Rattle.slice_pool.specs.inner.Rule.{AreAllBut};

    ghost fact = { AreAllBut };
}

/// A seat holds no number twice, and none that the machine doesn't have.
pub(crate) struct Few;

impl<P> Lesson<Waiting<P>, Hand> for Few {
    ghost use Rattle.slice_pool.specs.inner.Hands.{AreFew};

    ghost fact = { λ v items. AreFew v.key.size.threads v.held };
}

/// The queue of a pool on a memory.
pub(crate) type Line<M> = RuledArrayQueue<Waiting<<M as SharedMemory>::Pass>, Hand, Turns<M>>;

/// A seat of the queue.
pub(crate) type Seat<P> = Pass<Waiting<P>, Hand>;
