//! A memory that is tried, and how one is made.
ghost use Rattle.std.specs.Prelude.{◌≡◌, ℕ, [], IfOk, length, nat_lt};
ghost use Rattle.history.specs.Parts.{entries_of};
ghost use Rattle.memory_trials.specs.inner.Tried.{IsOf, IsPassOf};

use hst_memory::{HstMemory, HstPass};
use llsc_base::{Image, MachineSize};
use shared_memory::SharedMemory;
use std::alloc::{AllocError, Global};
use std::test::Fail;
use version_memory::{VersionMemory, VersionPass};

/// A memory that is tried.
pub(super) trait Tried: SharedMemory + Sized {
    /// A memory of these bytes at first, as many as the machine has, with the pass that holds the numbers of all its threads.
    fn made(
        alloc: Global,
        image: &Image,
        size: &MachineSize,
    ) -> Result<(Self, Self::Pass), AllocError>
        requires { length image.now.bytes ≡ size.now.mem }
        ensures size { IfOk result (λ made. (Self.origin made.0).size ≡ size.now) }
        ensures first { IfOk result (λ made. (Self.origin made.0).first ≡ size.now.threads) }
        ensures memory { IfOk result (λ made. Self.home made.1 ≡ Self.id made.0) }
        ensures numbers { IfOk result (λ made. (t : ℕ) → Self.numbers made.1 t ≡ nat_lt t size.now.threads) }
        ensures seen { IfOk result (λ made. Self.seen made.1 ≡ []) };
}

impl Tried for HstMemory {
    fn made(
        alloc: Global,
        image: &Image,
        size: &MachineSize,
    ) -> Result<(HstMemory, HstPass), AllocError> {
        HstMemory::new(alloc, image, size)
    }
}

impl Tried for VersionMemory {
    fn made(
        alloc: Global,
        image: &Image,
        size: &MachineSize,
    ) -> Result<(VersionMemory, VersionPass), AllocError> {
        VersionMemory::new(alloc, image, size)
    }
}

/// A machine's numbers, beside its bytes and its threads.
#[derive(Clone, Copy)]
pub(super) struct Shape {
    pub(super) classes: u64,
    pub(super) limit: u64,
    pub(super) granule: u64,
}

/// More writes than any trial makes.
pub(super) const MANY: u64 = 1 << 62;

/// As many classes as there may be, rows of a cell, and no store that is refused.
pub(super) const USUAL: Shape = Shape {
    classes: 4096,
    limit: MANY,
    granule: 0,
};

/// A machine of 65,536 bytes and so many threads.
pub(super) fn machine(threads: u64, shape: Shape) -> Result<MachineSize, Fail>
    ensures mem { IfOk result (λ size. size.mem ≡ 65536) }
    ensures threads { IfOk result (λ size. size.threads ≡ threads) }
{
    let size = MachineSize::new(65_536, threads, shape.classes, shape.limit)?;
    Ok(size.with_granule(shape.granule)?)
}

/// 65,536 bytes that are 0.
pub(super) fn zero_image(alloc: Global) -> Result<Image, Fail>
    ensures { IfOk result (λ image. length image.bytes ≡ 65536) }
{
    let bytes = vec![in alloc; 0; 65_536]?;
    Ok(Image::of(bytes, Vec::new(alloc), 0))
}

/// A memory of zeros, with the pass that holds the numbers of all its threads.
pub(super) fn zeros<M: Tried>(alloc: Global, size: &MachineSize) -> Result<(M, M::Pass), Fail>
    requires { size.now.mem ≡ 65536 }
    ensures machine { IfOk result (λ t. IsOf size.now.threads (M.origin t.0)) }
    ensures memory { IfOk result (λ t. M.home t.1 ≡ M.id t.0) }
    ensures numbers { IfOk result (λ t. (u : ℕ) → M.numbers t.1 u ≡ nat_lt u size.now.threads) }
    ensures none { IfOk result (λ t. (u : ℕ) → entries_of u (M.seen t.1) ≡ []) }
{
    let image = zero_image(alloc)?;
    let (memory, pass) = M::made(alloc, &image, size)?;
    Ok((memory, pass))
}

/// A memory of zeros, and the passes of its two threads.
pub(super) fn two<M: Tried>(alloc: Global, shape: Shape) -> Result<(M, M::Pass, M::Pass), Fail>
    ensures machine { IfOk result (λ t. IsOf 2 (M.origin t.0)) }
    ensures one { IfOk result (λ t. IsPassOf M.home M.numbers (M.id t.0) 0 t.1) }
    ensures other { IfOk result (λ t. IsPassOf M.home M.numbers (M.id t.0) 1 t.2) }
{
    let size = machine(2, shape)?;
    let (memory, mut one) = zeros::<M>(alloc, &size)?;
    let other = memory.split(&mut one, 1);
    Ok((memory, one, other))
}
