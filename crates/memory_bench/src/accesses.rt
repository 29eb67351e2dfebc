//! The accesses.
ghost use Rattle.std.specs.Prelude.{◌≡◌, ◌+◌, ◌<◌, ◌≤◌, ℕ, IfOk, IsTrue};
ghost use Rattle.llsc_base.specs.Memory.{is_aligned, size_bytes};
ghost use Rattle.shared_memory.specs.Seen.{IsSingle};
ghost use Rattle.memory_bench.specs.inner.Alone.{IsAlone};

use hst_memory::{HstMemory, HstPass};
use llsc_base::{Image, MachineSize, Place, Size};
use shared_memory::SharedMemory;
use std::alloc::{AllocError, Global};
use std::sync::Wait;

/// What is made in each round.
#[derive(Clone, Copy)]
pub(crate) enum Kind {
    /// A load-exclusive and a store-exclusive that adds 1.
    Pairs,
    /// A store.
    Stores,
    /// A load.
    Loads,
}

/// The kind of this name.
pub(crate) fn kind_of(name: &str) -> Option<Kind> {
    match name {
        "pairs" => Some(Kind::Pairs),
        "stores" => Some(Kind::Stores),
        "loads" => Some(Kind::Loads),
        _ => None,
    }
}

/// A memory of zeros for one thread, and its pass.
pub(crate) fn alone(alloc: Global) -> Result<(HstMemory, HstPass), AllocError>
    ensures { IfOk result (λ t. IsAlone t.0 t.1) }
{
    let Ok(size) = MachineSize::new(65_536, 1, 4096, 1) else {
        return Err(AllocError);
    };
    let bytes = vec![in alloc; 0; 65_536]?;
    let image = Image::of(bytes, Vec::new(alloc), 0);
    let (memory, pass) = HstMemory::new(alloc, &image, &size)?;
    Ok((memory, pass))
}

/// Makes so many accesses to one word, and adds up what they gave.
pub(crate) fn make<M: SharedMemory, R: Wait>(
    rt: &R,
    memory: &M,
    pass: &mut M::Pass,
    kind: Kind,
    rounds: u32,
) -> u64
    requires memory { M.home pass.old ≡ M.id memory.now }
    requires single { (t : ℕ) × IsSingle t (M.numbers pass.old) × (t < (M.origin memory.now).first) }
    requires size { (M.origin memory.now).size.mem ≡ 65536 }
    ensures memory { M.home pass.new ≡ M.home pass.old }
    ensures numbers { M.numbers pass.new ≡ M.numbers pass.old }
{
    let word = Place {
        addr: 0x2000,
        size: Size::B8,
    };
    let mut sum = 0u64;
    for _ in 0..rounds {
        sum = sum.wrapping_add(made(rt, memory, pass, kind, word));
    }
    sum
}

/// Makes one.
#[inline]
fn made<M: SharedMemory, R: Wait>(
    rt: &R,
    memory: &M,
    pass: &mut M::Pass,
    kind: Kind,
    word: Place,
) -> u64
    requires memory { M.home pass.old ≡ M.id memory.now }
    requires single { (t : ℕ) × IsSingle t (M.numbers pass.old) × (t < (M.origin memory.now).first) }
    requires size { (M.origin memory.now).size.mem ≡ 65536 }
    requires aligned { IsTrue (is_aligned word) }
    requires inside { word.addr + size_bytes word.size ≤ 65536 }
    requires wide { word.size ≡ Size.B8 }
    ensures memory { M.home pass.new ≡ M.home pass.old }
    ensures numbers { M.numbers pass.new ≡ M.numbers pass.old }
{
    match kind {
        Kind::Pairs => {
            let seen = memory.load_ex(rt, pass, word);
            u64::from(memory.store_ex(rt, pass, word, seen.wrapping_add(1)))
        }
        Kind::Stores => u64::from(memory.store(rt, pass, word, 7).is_ok()),
        Kind::Loads => memory.load(pass, word),
    }
}
