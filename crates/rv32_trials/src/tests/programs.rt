//! Images of programs of a few words.
ghost use Rattle.std.specs.Prelude.{◌≡◌, IfOk, length};

use llsc_base::{Image, MachineSize};
use std::alloc::Global;
use std::test::Fail;

/// The image of a flat file of these words, from 0x1000 on, which is as long as memory.
#[tactic(auto, using(crate::proofs::FlatImages::flat_sized))]
pub(super) fn image_of(alloc: Global, words: &[u32], size: &MachineSize) -> Result<Image, Fail>
    ensures { IfOk result (λ image. length image.bytes ≡ size.now.mem) }
{
    let mut bytes = Vec::new(alloc);
    for word in words {
        bytes.extend_from_slice(&word.to_le_bytes())?;
    }
    Ok(Image::flat(alloc, bytes.as_slice(), size)?)
}

/// The same in memory of 65,536 bytes.
pub(super) fn image(alloc: Global, words: &[u32]) -> Result<Image, Fail>
    ensures { IfOk result (λ image. length image.bytes ≡ 65536) }
{
    let size = MachineSize::new(65_536, 1, 1, 1)?;
    image_of(alloc, words, &size)
}
