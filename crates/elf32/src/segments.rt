//! Segments in memory: the spans that they become, and memory with their bytes of the file in it.
ghost use Rattle.std.specs.Prelude.{◌≡◌, ◌+◌, ◌-◌, ◌<◌, ◌≤◌, ◌^◌, ℕ, All, IfOk, false, if◌then◌else◌, length, map, slice_index};
ghost use Rattle.llsc_base.specs.Flat.{values_below};
ghost use Rattle.elf32.specs.Faults.{overlap};
ghost use Rattle.elf32.specs.Headers.{end_of};
ghost use Rattle.elf32.specs.Image.{byte_at, span_of, stores};
ghost use Rattle.elf32.specs.inner.Image.{IsPlaced};

use crate::headers::ProgramHeader;
use llsc_base::Span;
use std::alloc::{AllocError, Global};

/// The spans of segments that end below 2 to the 32.
pub(crate) fn spans(alloc: Global, segments: &[ProgramHeader]) -> Result<Vec<Span>, AllocError>
    requires { All (λ segment. end_of segment < 2 ^ 32) segments.now }
    ensures { IfOk result (λ spans. spans.items ≡ map span_of segments.now) }
{
    let mut spans = Vec::with_capacity(alloc, segments.len())?;
    for segment in segments {
        spans.push(span(segment))?;
    }
    Ok(spans)
}

/// The span of a segment.
fn span(segment: &ProgramHeader) -> Span
    requires { end_of segment.now < 2 ^ 32 }
    ensures { result ≡ span_of segment.now }
{
    Span {
        start: segment.address,
        end: segment.end() as u32,
        run: segment.runs(),
        write: segment.writes(),
    }
}

/// All of memory, with the bytes that the segments have in the file, and 0 elsewhere.
pub(crate) fn memory(
    alloc: Global,
    file: &[u8],
    segments: &[ProgramHeader],
    mem: u32,
) -> Result<Vec<u8>, AllocError>
    requires placed { All (IsPlaced (length file.now) mem) segments.now }
    requires apart { overlap segments.now ≡ false }
    ensures { IfOk result (λ memory. memory.items ≡ values_below mem (byte_at file.now segments.now)) }
{
    let mut memory = vec![in alloc; 0; mem as usize]?;
    for segment in segments {
        copy(&mut memory, file, segment);
    }
    Ok(memory)
}

/// Copies the bytes that a segment has in the file to its place in memory.
fn copy(memory: &mut [u8], file: &[u8], segment: &ProgramHeader)
    requires { IsPlaced (length file.now) (length memory.old) segment.now }
    ensures { (addr : ℕ) → slice_index memory.new addr ≡ (if stores segment.now addr
        then slice_index file.now (segment.now.offset + (addr - segment.now.address))
        else slice_index memory.old addr) }
{
    let from = segment.offset as usize;
    let to = segment.address as usize;
    let count = segment.file_size as usize;
    memory[to..to + count].copy_from_slice(&file[from..from + count]);
}
