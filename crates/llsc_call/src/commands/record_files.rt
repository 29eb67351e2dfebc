//! The files of `check` and `explain`: a record, and the program of which it is to be a run.
ghost use Rattle.std.specs.Prelude.{◌≡◌, None, Some, IfErr, IfOk, string_bytes};
ghost use Rattle.run_record.specs.Reading.{record_of};
ghost use Rattle.llsc_files.specs.Programs.{program_refusal, IsLoaded};
ghost use Rattle.llsc_files.specs.Refusals.{machine_of, most_program, too_long, IsRefusal};
ghost use Rattle.llsc_call.specs.Check.{record_fault_text};
ghost use Rattle.llsc_call.specs.inner.RecordFiles.{read_refusal, AreHad};

use llsc_files::{Loaded, Refusal, load, numbers_of, refuse};
use llsc_words::Format;
use run_record::{RecordFault, RunRecord, read_record};
use std::alloc::{AllocError, Global};

/// A record, with a machine of its threads and its granule, and the image of a program on that.
#[derive(Drop)]
pub struct RecordedRun {
    pub run: RunRecord,
    pub loaded: Loaded,
}

/// The name of a record's fault, with its line where it is a line's.
fn name_of(alloc: Global, fault: RecordFault) -> Result<String, AllocError>
    ensures { IfOk result (λ text. string_bytes text ≡ record_fault_text fault) }
{
    match fault {
        RecordFault::Line(line) => format!(in alloc; "Line {line}"),
        RecordFault::Thread(line) => format!(in alloc; "Thread {line}"),
        RecordFault::Header | RecordFault::TooLong | RecordFault::Memory => {
            String::from_str(alloc, fault.name())
        }
    }
}

/// The refusal of a record's file.
fn refuse_record(alloc: Global, fault: RecordFault) -> Refusal
    ensures named { IsRefusal (Some (record_fault_text fault)) result }
    ensures memory { fault ≡ RecordFault.Memory → result ≡ Refusal.Memory }
{
    if fault == RecordFault::Memory {
        return Refusal::Memory;
    }
    match name_of(alloc, fault) {
        Ok(name) => refuse(alloc, name.as_str()),
        Err(_) => Refusal::Memory,
    }
}

/// The machine of a record's threads and its granule with so much memory, and the image of a program's file on it.
///
/// # Errors
///
/// The refusal by what stands against the machine or the file, first.
fn load_for(
    alloc: Global,
    format: Format,
    mem: u64,
    file: Vec<u8>,
    run: &RunRecord,
) -> Result<Loaded, Refusal>
    requires short { too_long most_program file.items ≡ None }
    ensures loaded { IfOk result (IsLoaded format (machine_of mem run.now.threads run.now.granule) file.items) }
    ensures refused { IfErr result (IsRefusal (program_refusal format (machine_of mem run.now.threads run.now.granule) file.items)) }
{
    let numbers = numbers_of(mem, u64::from(run.threads), u64::from(run.granule));
    load(alloc, numbers, format, file)
}

/// Reads a record, and loads a program's file on a machine of its threads and its granule with so much memory.
///
/// # Errors
///
/// The refusal by the record's fault, or else by what stands against the machine or the program's file, first.
pub fn recorded_run(
    alloc: Global,
    format: Format,
    mem: u64,
    file: Vec<u8>,
    recorded: Vec<u8>,
) -> Result<RecordedRun, Refusal>
    requires short { too_long most_program file.items ≡ None }
    ensures had { IfOk result (AreHad format mem file.items recorded.items) }
    ensures refused { IfErr result (IsRefusal (read_refusal format mem file.items (record_of recorded.items))) }
{
    let run = match read_record(alloc, recorded.as_slice()) {
        Ok(run) => run,
        Err(fault) => return Err(refuse_record(alloc, fault)),
    };
    match load_for(alloc, format, mem, file, &run) {
        Ok(loaded) => Ok(RecordedRun { run, loaded }),
        Err(refusal) => Err(refusal),
    }
}
