//! Programs of a few words that several trials share, and images of programs.
ghost use Rattle.std.specs.Prelude.{◌≡◌, IfOk, length};

use llsc_base::{Image, MachineSize};
use std::alloc::Global;
use std::test::Fail;

/// Stores its number at 0x2000, loads it from there, and leaves with 0:
/// mov r2, #0x2000; str r0, [r2]; ldr r1, [r2]; mov r0, #0; exit.
pub(super) const SHARES: &[u32] = &[
    0xe3a0_2a02,
    0xe582_0000,
    0xe592_1000,
    0xe3a0_0000,
    0xe3a0_7001,
    0xef00_0000,
];

/// Adds 7 at 0x2000 by a load-exclusive and a store-exclusive, and leaves with 1 if that failed:
/// mov r1, #0x2000; ldrex r0, [r1]; add r0, r0, #7; strex r2, r0, [r1]; mov r0, r2; exit.
pub(super) const ADDS: &[u32] = &[
    0xe3a0_1a02,
    0xe191_0f9f,
    0xe280_0007,
    0xe181_2f90,
    0xe1a0_0002,
    0xe3a0_7001,
    0xef00_0000,
];

/// Writes the two bytes behind its last word, from 0x1020 up, and leaves with 0.
pub(super) const WRITES: &[u32] = &[
    0xe3a0_0001,
    0xe28f_1014,
    0xe3a0_2002,
    0xe3a0_7004,
    0xef00_0000,
    0xe3a0_0000,
    0xe3a0_7001,
    0xef00_0000,
    0x0000_6948,
];

/// The image of a flat file of these words, which is as long as memory.
#[tactic(auto, using(crate::proofs::FlatImages::flat_sized))]
pub(super) fn image_of(alloc: Global, words: &[u32], size: &MachineSize) -> Result<Image, Fail>
    ensures { IfOk result (λ image. length image.bytes ≡ size.now.mem) }
{
    let mut bytes = Vec::new(alloc);
    for word in words {
        bytes.extend_from_slice(&word.to_le_bytes())?;
    }
    Ok(Image::flat(alloc, bytes.as_slice(), size)?)
}
