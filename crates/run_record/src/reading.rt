//! A record, read.
ghost use Rattle.std.specs.Prelude.{◌≡◌, ◌⊎◌, ◌+◌, ◌<◌, ◌≤◌, ◌^◌, IfErr, IfOk, Ok, Err};
ghost use Rattle.run_record.specs.Fault.{HasFault};
ghost use Rattle.run_record.specs.Limits.{IsRecord, most_accesses};
ghost use Rattle.run_record.specs.Reading.{accesses_from, record_of};
ghost use Rattle.run_record.specs.inner.Seen.{fault_or_memory};
ghost use Rattle.run_record.specs.Text.{record_text};

use crate::faults::RecordFault;
use crate::headers::header_of;
use crate::limits::MOST_ACCESSES;
use crate::lines::next_access;
use crate::records::{Accesses, RunRecord};
use history::Access;
use std::alloc::Global;

/// The first fault of so many lines, the first of which has this number, and `Memory` where they have none.
fn fault_of_lines(threads: u32, count: u32, number: u32, bytes: &[u8]) -> RecordFault
    requires { number + count < 2 ^ 32 }
    ensures { result ≡ fault_or_memory (accesses_from threads count number bytes.now) }
{
    let mut rest = bytes;
    for line in 0..count {
        match next_access(threads, number + line, rest) {
            Ok((_, after)) => rest = after,
            Err(fault) => return fault,
        }
    }
    if !rest.is_empty() {
        return RecordFault::Line(number + count);
    }
    RecordFault::Memory
}

/// The accesses of so many lines, the first of which is line 2.
fn accesses_from(
    alloc: Global,
    threads: u32,
    count: u32,
    bytes: &[u8],
) -> Result<Vec<Access>, RecordFault>
    requires { count ≤ most_accesses }
    ensures read { IfOk result (λ accesses. accesses_from threads count 2 bytes.now ≡ Ok accesses.items) }
    ensures fault { IfErr result (λ fault. fault ≡ fault_or_memory (accesses_from threads count 2 bytes.now)) }
{
    let mut accesses = Vec::new(alloc);
    let mut rest = bytes;
    for line in 0..count {
        let (access, after) = next_access(threads, line + 2, rest)?;
        let Ok(()) = accesses.push(access) else {
            return Err(fault_of_lines(threads, count - line - 1, line + 3, after));
        };
        rest = after;
    }
    if !rest.is_empty() {
        return Err(RecordFault::Line(count + 2));
    }
    Ok(accesses)
}

/// The record of bytes, as it is read field by field.
fn record_of(alloc: Global, bytes: &[u8]) -> Result<RunRecord, RecordFault>
    ensures read { IfOk result (λ run. record_of bytes.now ≡ Ok run) }
    ensures fault { IfErr result (λ fault. fault ≡ fault_or_memory (record_of bytes.now)) }
{
    let Some((header, rest)) = header_of(bytes) else {
        return Err(RecordFault::Header);
    };
    if header.count > MOST_ACCESSES as u64 {
        return Err(RecordFault::TooLong);
    }
    let threads = header.threads as u32;
    let granule = header.granule as u32;
    match accesses_from(alloc, threads, header.count as u32, rest) {
        Ok(accesses) => Ok(RunRecord {
            threads,
            budget: header.budget,
            granule,
            accesses: Accesses::new(accesses),
        }),
        Err(fault) => Err(fault),
    }
}

/// The record whose text bytes are. It prints as the same bytes.
///
/// # Errors
///
/// For bytes that are no record's text their first fault, whether there is memory or not: `Header` where they don't
/// begin with a header line of either format, whose numbers are in range; `TooLong` where it says more than 1,000,000
/// accesses; and `Line` or `Thread` with the number of the first line that is wrong, counted from 1 with the header.
/// `Line` comes where the line isn't of the form, its place isn't aligned, its value doesn't fit its size or it is
/// missing, and where bytes stand behind the last access; `Thread` where the line is of the form and its thread isn't
/// below the header's. `Memory` comes where a record's text finds no memory for its accesses.
pub fn read_record(alloc: Global, bytes: &[u8]) -> Result<RunRecord, RecordFault>
    ensures record { IfOk result (λ run. record_of bytes.now ≡ Ok run) }
    ensures fault { IfErr result (λ fault. (record_of bytes.now ≡ Err fault) ⊎ (fault ≡ RecordFault.Memory)) }
    ensures refused { (fault : RecordFault) → record_of bytes.now ≡ Err fault → result ≡ Err fault }
    ensures text { IfOk result (λ run. (record_text run ≡ bytes.now) × IsRecord run) }
    ensures cause { IfErr result (λ fault. HasFault bytes.now fault ⊎ (fault ≡ RecordFault.Memory)) }
{
    record_of(alloc, bytes)
}
