//! A port by hand: a guest of A32 instructions whose loads read a clock, in the place of memory.
//!
//! A program with memory or a device of its own gives a thread its replies by [`TryPort`] and [`Port`]: which replies may come is the
//! port's to say (`replies`), here [`Clock`]'s by `IsTicked` (`specs/inner/Clock`). Where a port has to wait for a reply, it is
//! given a handle by which it may ([`Port::reply`]); a clock replies at once ([`TryPort::try_reply`]), and its handle is `()`. The
//! loop of the thread is [`Guest::run`], as for every memory, and its contract says what follows of that: the guest's run is one of
//! these instructions, and what it was replied are the clock's numbers in order.
ghost use Rattle.std.specs.Prelude.{◌≡◌, ◌⊎◌, ◌+◌, ◌%◌, ◌^◌, ◌<◌, None, Some, IfErr, IfOk};
ghost use Rattle.llsc_base.specs.Flat.{flat_fault, flat_image};
ghost use Rattle.llsc_base.specs.Sizes.{numbers};
ghost use Rattle.by_hand.specs.inner.Clock.{EndsOverClock};

use a32_step::Cpu;
use guest_core::{Code, Port, TryPort};
use guest_thread::Guest;
use llsc_base::{Ask, FlatFault, Image, MachineSize, STATUS_FAILED, Stop};
use std::alloc::Global;

/// How many steps a guest may make.
const BUDGET: u64 = 1000;

/// A clock of eight bits, which a load reads from any place of `mem` bytes, and which then goes on by one. A store has no effect,
/// and a store-exclusive fails.
#[derive(Drop)]
struct Clock {
    mem: u32,
    reads: u64,
}

impl Clock {
    /// What the clock says, before it goes on.
    fn read(&mut self) -> u64
        requires { self.old.reads < 2 ^ 63 }
        ensures value { result ≡ self.old.reads % 256 }
        ensures reads { self.new.reads ≡ self.old.reads + 1 }
        ensures mem { self.new.mem ≡ self.old.mem }
    {
        let value = self.reads % 256;
        self.reads += 1;
        value
    }
}

impl TryPort for Clock {
    ghost use Rattle.by_hand.specs.inner.Clock.{IsTicked};

    ghost replies = { IsTicked };

    ghost mem = { λ clock. clock.mem };

    ghost counted = { λ clock. clock.reads };

    fn try_reply(&mut self, ask: Ask) -> Option<u64> {
        Some(match ask {
            Ask::Load(_) | Ask::LoadEx(_) => self.read(),
            Ask::StoreEx(_, _) => STATUS_FAILED,
            Ask::Store(_, _) | Ask::Clear => 0,
        })
    }

    fn counts_one() {}
}

impl Port<()> for Clock {
    ghost refuses = { λ clock addr. ⊥ };

    // It replies to each access at once.
    fn reply(&mut self, handle: &(), ask: Ask) -> Option<u64> {
        self.try_reply(ask)
    }
}

/// Runs a flat file's one thread over a clock, up to its stop.
///
/// # Errors
///
/// As [`Image::flat`], and `Memory` also where there is no memory for the thread.
pub(crate) fn run_over_clock(
    alloc: Global,
    file: &[u8],
    size: &MachineSize,
) -> Result<Stop, FlatFault>
    requires { size.now.threads ≡ 1 }
    ensures ran { IfOk result (λ stop. (flat_fault file.now size.now ≡ None) × EndsOverClock (flat_image file.now size.now) size.now stop) }
    ensures refused { IfErr result (λ fault. (flat_fault file.now size.now ≡ Some fault) ⊎ (fault ≡ FlatFault.Memory)) }
{
    let mem = size.mem();
    prove!(mem <= 16_777_216);
    let image = Image::flat(alloc, file, size)?;
    let Ok(mut guest) = Guest::<Cpu>::start(alloc, &image, size, 0) else {
        return Err(FlatFault::Memory);
    };
    let Ok(mut code) = Code::new(alloc, &image) else {
        return Err(FlatFault::Memory);
    };
    let mut clock = Clock { mem, reads: 0 };
    Ok(guest.run(&(), &mut code, BUDGET, &mut clock))
}

/// A guest that reads the word at 0x2000 three times, and leaves with the sum of what it read last and the time before.
const READER: [u8; 28] = [
    0x02, 0x4a, 0xa0, 0xe3, // mov r4, #8192
    0x00, 0x00, 0x94, 0xe5, // ldr r0, [r4]
    0x00, 0x10, 0x94, 0xe5, // ldr r1, [r4]
    0x00, 0x20, 0x94, 0xe5, // ldr r2, [r4]
    0x02, 0x00, 0x81, 0xe0, // add r0, r1, r2
    0x01, 0x70, 0xa0, 0xe3, // mov r7, #1
    0x00, 0x00, 0x00, 0xef, // svc #0
];

/// How the guest ends that reads the clock three times.
///
/// # Errors
///
/// As [`run_over_clock`]; of its faults only `Memory` comes here.
pub(crate) fn three_reads(alloc: Global) -> Result<Stop, FlatFault>
    ensures ran { let size = numbers 65536 1 1 1 in IfOk result (λ stop. EndsOverClock (flat_image READER size) size stop) }
    ensures memory { IfErr result (λ fault. fault ≡ FlatFault.Memory) }
{
    let Ok(size) = MachineSize::new(65_536, 1, 1, 1) else {
        unreachable!()
    };
    run_over_clock(alloc, &READER, &size)
}
