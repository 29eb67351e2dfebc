//! Guest threads at their start, on a memory on which they may start others.
ghost use Rattle.std.specs.Prelude.{◌≡◌, ◌≤◌, ◌<◌, ◌+◌, ◌*◌, ℕ, IfOk, [], nat_lt, vec_len, vec_capacity};
ghost use Rattle.std.specs.List.{range_with_len};
ghost use Rattle.history.specs.Parts.{entries_of};
ghost use Rattle.shared_memory.specs.Seen.{IsSingle};
ghost use Rattle.guest_family.specs.Kin.{AreSpares, AreStarters, AreReadyKin, IsStarter, heads_of, spares_of};
ghost use Rattle.guest_family.specs.inner.Left.{AreLeft};

use a32_step::{Cpu, Kept};
use guest_calls::Output;
use guest_core::Code;
use guest_thread::{GuestEnd, Job, job_of};
use llsc_base::Image;
use shared_memory::StartMemory;
use std::alloc::{AllocError, Global};

/// What a thread is to run with that may be started: its number, its pass of the memory, where its output goes, and its program.
#[derive(Drop)]
pub struct Spare<'i, P> {
    pub thread: u32,
    pub pass: P,
    pub out: Output,
    pub code: Code<'i, Kept>,
}

/// A thread that begins by itself, with the threads that it may start in order of number, and room for the ends of all of them.
#[derive(Drop)]
pub struct Starter<'i, P> {
    pub job: Job<'i, P, Cpu, Kept>,
    pub spares: Vec<Spare<'i, P>>,
    pub ends: Vec<GuestEnd>,
}

/// All threads of a memory, each of the first with those that it may start, with room for their ends.
#[derive(Drop)]
pub struct Kin<'i, P> {
    pub(crate) first: Starter<'i, P>,
    pub(crate) others: Vec<Starter<'i, P>>,
    pub(crate) ends: Vec<GuestEnd>,
    pub(crate) children: Vec<GuestEnd>,
}

/// What threads are to run with that may be started, so many from a number up, whose numbers the pass gives away.
fn spares_from<'i, M: StartMemory>(
    alloc: Global,
    mem: &M,
    image: &'i Image,
    first: &mut M::Pass,
    from: u32,
    count: u32,
) -> Result<Vec<Spare<'i, M::Pass>>, AllocError>
    requires memory { M.home first.old ≡ M.id mem.now }
    requires inside { (1 ≤ (M.origin mem.now).first) × ((M.origin mem.now).first ≤ from) × (from + count ≤ (M.origin mem.now).size.threads) }
    requires few { (M.origin mem.now).size.threads ≤ 16 }
    requires left { (low : ℕ) × AreLeft (M.origin mem.now).first (M.origin mem.now).size.threads low from (M.numbers first.old) }
    requires none { (t : ℕ) → entries_of t (M.seen first.old) ≡ [] }
    ensures spares { IfOk result (λ spares. AreSpares M.home M.numbers M.seen (M.id mem.now) image.now spares.items) }
    ensures threads { IfOk result (λ spares. spares_of spares.items ≡ range_with_len from count) }
    ensures len { IfOk result (λ spares. vec_len spares ≡ count) }
    ensures left { IfOk result (λ _. (low : ℕ) → AreLeft (M.origin mem.now).first (M.origin mem.now).size.threads low from (M.numbers first.old)
        → AreLeft (M.origin mem.now).first (M.origin mem.now).size.threads low (from + count) (M.numbers first.new)) }
    ensures memory { M.home first.new ≡ M.home first.old }
    ensures seen { M.seen first.new ≡ M.seen first.old }
{
    let mut spares = Vec::with_capacity(alloc, count as usize)?;
    for thread in from..from + count {
        let pass = mem.split(first, thread);
        let code = Code::new(alloc, image)?;
        let out = Output::new(alloc)?;
        spares.push(Spare {
            thread,
            pass,
            out,
            code,
        })?;
    }
    Ok(spares)
}

/// A thread that begins by itself, with those that it may start, and room for their ends.
fn starter_of<'i, P: Drop>(
    alloc: Global,
    job: Job<'i, P, Cpu, Kept>,
    spares: Vec<Spare<'i, P>>,
) -> Result<Starter<'i, P>, AllocError>
    ensures job { IfOk result (λ starter. starter.job ≡ job.entry) }
    ensures spares { IfOk result (λ starter. starter.spares ≡ spares.entry) }
    ensures empty { IfOk result (λ starter. (starter.ends.items ≡ []) × (vec_len starter.ends ≡ 0)) }
    ensures room { IfOk result (λ starter. vec_len spares.entry ≤ vec_capacity starter.ends) }
{
    let ends = Vec::with_capacity(alloc, spares.len())?;
    Ok(Starter { job, spares, ends })
}

/// One of the first threads but thread 0, with as many as are spare, whose numbers the pass gives away.
fn starter_from<'i, M: StartMemory>(
    alloc: Global,
    mem: &M,
    image: &'i Image,
    first: &mut M::Pass,
    heads: u32,
    spare: u32,
    t: u32,
) -> Result<Starter<'i, M::Pass>, AllocError>
    requires numbers { (heads ≡ (M.origin mem.now).first) × (spare ≡ (M.origin mem.now).spare) × (heads * (1 + spare) ≡ (M.origin mem.now).size.threads) }
    requires thread { (1 ≤ t) × (t < heads) }
    requires few { (M.origin mem.now).size.threads ≤ 16 }
    requires memory { M.home first.old ≡ M.id mem.now }
    requires left { AreLeft (M.origin mem.now).first (M.origin mem.now).size.threads t (heads + t * spare) (M.numbers first.old) }
    requires none { (u : ℕ) → entries_of u (M.seen first.old) ≡ [] }
    ensures starter { IfOk result (IsStarter M.home M.numbers M.seen (M.id mem.now) (M.origin mem.now) image.now) }
    ensures thread { IfOk result (λ starter. starter.job.thread ≡ t) }
    ensures left { IfOk result (λ _. AreLeft (M.origin mem.now).first (M.origin mem.now).size.threads (t + 1) (heads + (t + 1) * spare) (M.numbers first.new)) }
    ensures memory { M.home first.new ≡ M.home first.old }
    ensures seen { M.seen first.new ≡ M.seen first.old }
{
    let pass = mem.split(first, t);
    let job = job_of(alloc, mem, image, t, pass)?;
    let spares = spares_from(alloc, mem, image, first, heads + t * spare, spare)?;
    Ok(starter_of(alloc, job, spares)?)
}

/// Those of all first threads but thread 0, each with as many as are spare.
fn other_starters<'i, M: StartMemory>(
    alloc: Global,
    mem: &M,
    image: &'i Image,
    first: &mut M::Pass,
    heads: u32,
    spare: u32,
) -> Result<Vec<Starter<'i, M::Pass>>, AllocError>
    requires numbers { (heads ≡ (M.origin mem.now).first) × (spare ≡ (M.origin mem.now).spare) × (1 ≤ heads) × (heads * (1 + spare) ≡ (M.origin mem.now).size.threads) }
    requires few { (M.origin mem.now).size.threads ≤ 16 }
    requires memory { M.home first.old ≡ M.id mem.now }
    requires left { AreLeft (M.origin mem.now).first (M.origin mem.now).size.threads 1 ((M.origin mem.now).first + (M.origin mem.now).spare) (M.numbers first.old) }
    requires none { (t : ℕ) → entries_of t (M.seen first.old) ≡ [] }
    ensures starters { IfOk result (λ starters. AreStarters M.home M.numbers M.seen (M.id mem.now) (M.origin mem.now) image.now starters.items) }
    ensures threads { IfOk result (λ starters. heads_of starters.items ≡ range_with_len 1 (vec_len starters)) }
    ensures len { IfOk result (λ starters. vec_len starters + 1 ≡ heads) }
    ensures single { IfOk result (λ _. IsSingle 0 (M.numbers first.new)) }
    ensures memory { M.home first.new ≡ M.home first.old }
    ensures seen { M.seen first.new ≡ M.seen first.old }
{
    let mut starters = Vec::with_capacity(alloc, heads as usize)?;
    for t in 1..heads {
        starters.push(starter_from(alloc, mem, image, first, heads, spare, t)?)?;
    }
    Ok(starters)
}

/// All threads of a memory: those that begin by themselves, each with those that it may start, with what they need of memory, so
/// that none is asked for while they run. The pass holds the numbers of all threads, none of which has made an access.
///
/// # Errors
///
/// `AllocError` is want of memory. Then the passes are gone, and the memory can't be closed.
pub fn prepare_family<'i, M: StartMemory>(
    alloc: Global,
    mem: &M,
    image: &'i Image,
    mut first: M::Pass,
) -> Result<Kin<'i, M::Pass>, AllocError>
    requires memory { M.home first ≡ M.id mem.now }
    requires numbers { (t : ℕ) → M.numbers first t ≡ nat_lt t (M.origin mem.now).size.threads }
    requires none { (t : ℕ) → entries_of t (M.seen first) ≡ [] }
    ensures ready { IfOk result (AreReadyKin M.home M.numbers M.seen (M.id mem.now) (M.origin mem.now) image.now) }
    ensures seen { IfOk result (λ kin. M.seen kin.first.job.pass ≡ M.seen first) }
{
    let heads = mem.first();
    let spare = mem.spare();
    let all = mem.size().threads();
    let ends = Vec::with_capacity(alloc, all as usize)?;
    let children = Vec::with_capacity(alloc, all as usize)?;
    let own = spares_from(alloc, mem, image, &mut first, heads, spare)?;
    let others = other_starters(alloc, mem, image, &mut first, heads, spare)?;
    let job = job_of(alloc, mem, image, 0, first)?;
    Ok(Kin {
        first: starter_of(alloc, job, own)?,
        others,
        ends,
        children,
    })
}
