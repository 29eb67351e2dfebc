//! Threads that have ended, taken together one after another.
ghost use Rattle.std.specs.Prelude.{◌≡◌, ◌<◌, ◌≤◌, ◌+◌, [], ◌∷◌, ◌++◌, IfNone, IfSome, MatchOption, vec_len, vec_capacity};
ghost use Rattle.shared_memory.specs.Seen.{IsFront, SaysAllOf, joint, longer};
ghost use Rattle.guest_thread.specs.Crews.{AreFresh, IsFresh};

use crate::crews::Job;
use crate::ends::GuestEnd;
use crate::running::Finished;
use guest_core::Core;
use llsc_base::Image;
use shared_memory::SharedMemory;

/// Threads that have ended: the pass of all of them, and how each ended, in order of number.
#[derive(Drop)]
pub struct Ran<P> {
    pub pass: P,
    pub ends: Vec<GuestEnd>,
}

/// Takes one more thread that has ended to those before it.
pub fn gather<M: SharedMemory>(mem: &M, ran: Ran<M::Pass>, done: Finished<M::Pass>) -> Ran<M::Pass>
    requires memory { (M.home ran.pass ≡ M.id mem.now) × (M.home done.pass ≡ M.id mem.now) }
    requires room { vec_len ran.ends < vec_capacity ran.ends }
    ensures memory { M.home result.pass ≡ M.id mem.now }
    ensures numbers { M.numbers result.pass ≡ joint (M.numbers ran.pass) (M.numbers done.pass) }
    ensures seen { M.seen result.pass ≡ longer (M.seen ran.pass) (M.seen done.pass) }
    ensures fronts { IsFront (M.seen ran.pass) (M.seen result.pass) × IsFront (M.seen done.pass) (M.seen result.pass) }
    ensures mine { SaysAllOf (M.numbers ran.pass) (M.seen ran.pass) (M.seen result.pass) }
    ensures yours { SaysAllOf (M.numbers done.pass) (M.seen done.pass) (M.seen result.pass) }
    ensures ends { result.ends.items ≡ ran.ends.items ++ done.end ∷ [] }
    ensures len { vec_len result.ends ≡ vec_len ran.ends + 1 }
    ensures capacity { vec_capacity ran.ends ≤ vec_capacity result.ends }
{
    let Ran { mut pass, mut ends } = ran;
    let Finished { pass: other, end } = done;
    mem.join(&mut pass, other);
    ends.push_reserved(end);
    Ran { pass, ends }
}

/// The first of the threads that have ended.
pub fn begin<P>(done: Finished<P>, mut ends: Vec<GuestEnd>) -> Ran<P>
    requires room { vec_len ends < vec_capacity ends }
    ensures pass { result.pass ≡ done.pass }
    ensures ends { result.ends.items ≡ ends.items ++ done.end ∷ [] }
    ensures len { vec_len result.ends ≡ vec_len ends + 1 }
    ensures capacity { vec_capacity ends ≤ vec_capacity result.ends }
{
    let Finished { pass, end } = done;
    ends.push_reserved(end);
    Ran { pass, ends }
}

/// The last of the jobs, taken out, where there is one.
pub fn pop_job<'i, M: SharedMemory, C: Core>(
    mem: &M,
    image: &Image,
    jobs: &mut Vec<Job<'i, M::Pass, C, C::Ready>>,
) -> Option<Job<'i, M::Pass, C, C::Ready>>
    requires fresh { AreFresh C.set C.machine M.home M.numbers M.seen (M.id mem.now) (M.origin mem.now) image.now jobs.old.items }
    ensures others { AreFresh C.set C.machine M.home M.numbers M.seen (M.id mem.now) (M.origin mem.now) image.now jobs.new.items }
    ensures last { IfSome result (IsFresh C.set C.machine M.home M.numbers M.seen (M.id mem.now) (M.origin mem.now) image.now) }
    ensures items { MatchOption result (jobs.old.items ≡ []) (λ last. jobs.old.items ≡ jobs.new.items ++ last ∷ []) }
    ensures len { IfSome result (λ _. vec_len jobs.old ≡ vec_len jobs.new + 1) }
    ensures empty { IfNone result (vec_len jobs.old ≡ 0) }
{
    jobs.pop()
}
