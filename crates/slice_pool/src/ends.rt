//! How all guests ended, in order of number.
ghost use Rattle.std.specs.Prelude.{◌≡◌, ◌<◌, ◌≤◌, ◌+◌, ℕ, [], All, sum_by, vec_len, vec_capacity};
ghost use Rattle.slice_pool.specs.inner.Hands.{key_of};
ghost use Rattle.slice_pool.specs.inner.Over.{AreAllGone, IsGone, weighs};
ghost use Rattle.slice_pool.specs.inner.Ends.{HaveEndedUpto, one};

use crate::turns::Gone;
use guest_thread::GuestEnd;
use llsc_base::Image;
use shared_memory::SharedMemory;

/// Guests that have ended: the pass of all of them, and in order of number how each ended and in how many slices.
#[derive(Drop)]
pub struct Pooled<P> {
    pub pass: P,
    pub ends: Vec<GuestEnd>,
    pub turns: Vec<u64>,
}

/// Takes the guest of a number out of those that have ended.
fn take_end<M: SharedMemory>(
    mem: &M,
    image: &Image,
    done: &mut Vec<Gone<M::Pass>>,
    thread: u32,
    slice: u64,
    budget: u64,
) -> Gone<M::Pass>
    requires there { 1 ≤ sum_by (weighs (one thread)) done.old.items }
    requires gone { All (IsGone M.home M.numbers M.seen (M.origin mem.now) (key_of (M.id mem.now) image.now (M.origin mem.now).size slice budget)) done.old.items }
    ensures thread { result.end.thread ≡ thread }
    ensures end { IsGone M.home M.numbers M.seen (M.origin mem.now) (key_of (M.id mem.now) image.now (M.origin mem.now).size slice budget) result }
    ensures gone { All (IsGone M.home M.numbers M.seen (M.origin mem.now) (key_of (M.id mem.now) image.now (M.origin mem.now).size slice budget)) done.new.items }
    ensures others { (weight : ℕ → ℕ) → sum_by (weighs weight) done.new.items + weight thread ≡ sum_by (weighs weight) done.old.items }
    ensures len { vec_len done.new + 1 ≡ vec_len done.old }
{
    for i in 0..done.len() {
        if done[i].end.thread == thread {
            return done.swap_remove(i);
        }
    }
    unreachable!()
}

/// Takes one more guest to those before it.
fn join_end<M: SharedMemory>(
    mem: &M,
    image: &Image,
    ran: &mut Pooled<M::Pass>,
    gone: Gone<M::Pass>,
    slice: u64,
    budget: u64,
)
    requires ran { HaveEndedUpto M.home M.numbers M.seen (M.origin mem.now) (key_of (M.id mem.now) image.now (M.origin mem.now).size slice budget) gone.end.thread ran.old.pass ran.old.ends.items ran.old.turns.items }
    requires gone { IsGone M.home M.numbers M.seen (M.origin mem.now) (key_of (M.id mem.now) image.now (M.origin mem.now).size slice budget) gone }
    requires room { (vec_len ran.old.ends < vec_capacity ran.old.ends) × (vec_len ran.old.turns < vec_capacity ran.old.turns) }
    ensures ran { HaveEndedUpto M.home M.numbers M.seen (M.origin mem.now) (key_of (M.id mem.now) image.now (M.origin mem.now).size slice budget) (gone.end.thread + 1) ran.new.pass ran.new.ends.items ran.new.turns.items }
    ensures len { (vec_len ran.new.ends ≡ vec_len ran.old.ends + 1) × (vec_len ran.new.turns ≡ vec_len ran.old.turns + 1) }
    ensures capacity { (vec_capacity ran.new.ends ≡ vec_capacity ran.old.ends) × (vec_capacity ran.new.turns ≡ vec_capacity ran.old.turns) }
{
    let Gone { pass, end, turns } = gone;
    mem.join(&mut ran.pass, pass);
    ran.ends.push_reserved(end);
    ran.turns.push_reserved(turns);
}

/// The first of them.
fn begin_end<M: SharedMemory>(
    mem: &M,
    image: &Image,
    gone: Gone<M::Pass>,
    mut ends: Vec<GuestEnd>,
    mut turns: Vec<u64>,
    slice: u64,
    budget: u64,
) -> Pooled<M::Pass>
    requires first { gone.end.thread ≡ 0 }
    requires gone { IsGone M.home M.numbers M.seen (M.origin mem.now) (key_of (M.id mem.now) image.now (M.origin mem.now).size slice budget) gone }
    requires empty { (ends.items ≡ []) × (vec_len ends ≡ 0) × (turns.items ≡ []) × (vec_len turns ≡ 0) }
    requires room { (1 ≤ vec_capacity ends) × (1 ≤ vec_capacity turns) }
    ensures ran { HaveEndedUpto M.home M.numbers M.seen (M.origin mem.now) (key_of (M.id mem.now) image.now (M.origin mem.now).size slice budget) 1 result.pass result.ends.items result.turns.items }
    ensures len { (vec_len result.ends ≡ 1) × (vec_len result.turns ≡ 1) }
    ensures capacity { (vec_capacity result.ends ≡ vec_capacity ends) × (vec_capacity result.turns ≡ vec_capacity turns) }
{
    let Gone {
        pass,
        end,
        turns: many,
    } = gone;
    ends.push_reserved(end);
    turns.push_reserved(many);
    Pooled { pass, ends, turns }
}

/// Puts the ends in order of number, with the pass of all guests.
pub(crate) fn in_order<M: SharedMemory>(
    mem: &M,
    image: &Image,
    mut done: Vec<Gone<M::Pass>>,
    ends: Vec<GuestEnd>,
    turns: Vec<u64>,
    slice: u64,
    budget: u64,
) -> Pooled<M::Pass>
    requires gone { All (IsGone M.home M.numbers M.seen (M.origin mem.now) (key_of (M.id mem.now) image.now (M.origin mem.now).size slice budget)) done.items }
    requires all { AreAllGone (M.origin mem.now).size.threads done.items }
    requires empty { (ends.items ≡ []) × (vec_len ends ≡ 0) × (turns.items ≡ []) × (vec_len turns ≡ 0) }
    requires room { ((M.origin mem.now).size.threads ≤ vec_capacity ends) × ((M.origin mem.now).size.threads ≤ vec_capacity turns) }
    ensures ran { HaveEndedUpto M.home M.numbers M.seen (M.origin mem.now) (key_of (M.id mem.now) image.now (M.origin mem.now).size slice budget) (M.origin mem.now).size.threads result.pass result.ends.items result.turns.items }
{
    let size = mem.size();
    let count = size.threads();
    let first = take_end(mem, image, &mut done, 0, slice, budget);
    let mut ran = begin_end(mem, image, first, ends, turns, slice, budget);
    for t in 1..count {
        let gone = take_end(mem, image, &mut done, t, slice, budget);
        join_end(mem, image, &mut ran, gone, slice, budget);
    }
    ran
}
