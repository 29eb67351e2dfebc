//! The header line, of either format.
ghost use Rattle.std.specs.Prelude.{◌≡◌};
ghost use Rattle.run_record.specs.Reading.{granule_of, header_numbers, header_of, is_run, labelled, named_granule};
ghost use Rattle.run_record.specs.inner.Seen.{read_seen};

use crate::fields::{after, number_field};
use llsc_base::MOST_STEPS;

/// The numbers of a header line: threads, the granule number, the budget of each thread, and accesses.
#[derive(Clone, Copy)]
pub struct Header {
    pub threads: u64,
    pub granule: u64,
    pub budget: u64,
    pub count: u64,
}

/// The number behind a label.
fn labelled<'a>(label: &[u8], code: u8, bytes: &'a [u8]) -> Option<(u64, &'a [u8])>
    ensures { read_seen result ≡ labelled label.now code bytes.now }
{
    let rest = after(label, bytes)?;
    number_field(code, rest)
}

/// The granule number that the second format names, which isn't 0.
fn named_granule(bytes: &[u8]) -> Option<(u64, &[u8])>
    ensures { read_seen result ≡ named_granule bytes.now }
{
    let (granule, rest) = labelled(b"granule ", b' ', bytes)?;
    if granule == 0 {
        return None;
    }
    Some((granule, rest))
}

/// The granule number by the format: the first names none, and it is 0.
fn granule_of(format: u64, bytes: &[u8]) -> Option<(u64, &[u8])>
    ensures { read_seen result ≡ granule_of format bytes.now }
{
    match format {
        1 => Some((0, bytes)),
        2 => named_granule(bytes),
        _ => None,
    }
}

/// The numbers of the header line that bytes begin with.
fn header_numbers(bytes: &[u8]) -> Option<(Header, &[u8])>
    ensures { read_seen result ≡ header_numbers bytes.now }
{
    let (format, rest) = labelled(b"llsc-run ", b' ', bytes)?;
    let (threads, rest) = labelled(b"threads ", b' ', rest)?;
    let (granule, rest) = granule_of(format, rest)?;
    let (budget, rest) = labelled(b"budget ", b' ', rest)?;
    let (count, rest) = labelled(b"accesses ", b'\n', rest)?;
    let header = Header {
        threads,
        granule,
        budget,
        count,
    };
    Some((header, rest))
}

/// Whether the numbers are those of a run.
fn is_run(header: Header) -> bool
    ensures { result ≡ is_run header }
{
    (1 <= header.threads && header.threads <= 16)
        && header.granule <= 8
        && (1 <= header.budget && header.budget <= MOST_STEPS)
}

/// The header line of a run that bytes begin with, and what stands behind it.
#[tactic(auto, unfolding(crate::specs::Reading::header_of))]
pub fn header_of(bytes: &[u8]) -> Option<(Header, &[u8])>
    ensures { read_seen result ≡ header_of bytes.now }
{
    let (header, rest) = header_numbers(bytes)?;
    if !is_run(header) {
        return None;
    }
    Some((header, rest))
}
