//! Guests of a few words, whose accesses are replied to by hand.
ghost use Rattle.std.specs.Prelude.{◌≡◌, ◌≤◌, length};

use super::programs::{WRITES, image_of};
use a32_step::Cpu;
use guest_calls::Output;
use guest_thread::{Guest, Turn};
use llsc_base::{Ask, Image, MachineSize, Place, Size, Stop};
use std::alloc::Global;
use std::test::Fail;

/// Loads the byte at r1, which is 1, stores it there, and leaves with it.
const COPIES: &[u32] = &[0xe5d1_0000, 0xe5c1_0000, 0xe3a0_7001, 0xef00_0000];

/// The bytes that they access.
const FIRST: Place = Place {
    addr: 0x1020,
    size: Size::B1,
};

const SECOND: Place = Place {
    addr: 0x1021,
    size: Size::B1,
};

const AT_1: Place = Place {
    addr: 1,
    size: Size::B1,
};

/// The accesses of either, with their replies.
const HI: &[(Ask, u8)] = &[(Ask::Load(FIRST), b'H'), (Ask::Load(SECOND), b'i')];

const COPY: &[(Ask, u8)] = &[(Ask::Load(AT_1), 42), (Ask::Store(AT_1, 42), 0)];

/// The words, the budget, the accesses with their replies; the stop, the steps and the output.
const CASES: &[(&[u32], u32, &[(Ask, u8)], Stop, u64, &[u8])] = &[
    (WRITES, 100, HI, Stop::Exit(0), 8, b"Hi"),
    (WRITES, 8, HI, Stop::Exit(0), 8, b"Hi"),
    (WRITES, 5, HI, Stop::Budget, 5, b"Hi"),
    (WRITES, 4, &[], Stop::Budget, 4, b""),
    (COPIES, 100, COPY, Stop::Exit(42), 4, b""),
    (COPIES, 2, COPY, Stop::Budget, 2, b""),
];

/// The stop, the steps and the output of a guest that asks for just these accesses, with these replies.
#[tactic(auto, using(crate::proofs::ByteReplies::takes_byte))]
fn ended(
    alloc: Global,
    image: &Image,
    size: &MachineSize,
    budget: u64,
    accesses: &[(Ask, u8)],
) -> Result<(Stop, u64, Output), Fail>
    requires whole { length image.now.bytes ≡ size.now.mem }
    requires budget { budget ≤ 1000000000000 }
{
    let (mem, threads) = (size.mem(), size.threads());
    prove!(mem <= 16_777_216 && threads >= 1);
    let mut guest = Guest::<Cpu>::start(alloc, image, size, 0)?;
    for (ask, reply) in accesses {
        let Turn::Asks(asked) = guest.next(image, budget) else {
            return Err(Fail::from("the guest ends early"));
        };
        if asked != *ask {
            return Err(Fail::from("the guest asks for another access"));
        }
        guest.give(u64::from(*reply));
    }
    let Turn::Ended(stop) = guest.next(image, budget) else {
        return Err(Fail::from("the guest asks for one access more"));
    };
    Ok((stop, guest.steps(), guest.into_output()))
}

/// The same of a guest of these words.
fn ended_of(
    alloc: Global,
    words: &[u32],
    budget: u32,
    accesses: &[(Ask, u8)],
) -> Result<(Stop, u64, Output), Fail> {
    let size = MachineSize::new(65_536, 1, 1, 1)?;
    let image = image_of(alloc, words, &size)?;
    ended(alloc, &image, &size, u64::from(budget), accesses)
}

/// Whether an end has this stop, so many steps and this output.
fn is_end(end: &(Stop, u64, Output), stop: Stop, steps: u64, output: &[u8]) -> bool {
    end.0 == stop && end.1 == steps && end.2.bytes() == output
}

#[test]
fn runs_guests(rt: HostRuntime) -> Result<(), Fail> {
    for (words, budget, accesses, stop, steps, output) in CASES {
        let end = ended_of(rt.alloc(), words, *budget, accesses)?;
        assert!(rt; is_end(&end, *stop, *steps, output));
    }
    Ok(())
}
