//! Why bytes are no record.
ghost use Rattle.std.specs.Prelude.{◌≡◌};
ghost use Rattle.run_record.specs.Names.{record_fault_name};

use thiserror::Error;

/// Why bytes are no record. Lines are counted from 1, the header first.
#[derive(Clone, Copy, Debug, PartialEq, Eq, Error)]
pub enum RecordFault {
    /// The first line has neither form, or a number of it is out of range: a record has 1 to 16 threads and a budget of
    /// 1 to 1,000,000,000,000, a granule number that is named is 1 to 8, and no number is 2 to the 64th or more.
    #[error("the first line is no header of a record")]
    Header,
    /// The header says more than 1,000,000 accesses.
    #[error("the record has more than 1,000,000 accesses")]
    TooLong,
    /// This line isn't of the form, isn't aligned, has a value that doesn't fit its size, or is missing; or bytes
    /// stand here, behind the last access.
    #[error("line {0} is no access")]
    Line(u32),
    /// This line is of the form, but its thread isn't one of the record's.
    #[error("the thread of line {0} is none of the record's")]
    Thread(u32),
    /// Want of memory.
    #[error("out of memory")]
    Memory,
}

impl RecordFault {
    /// The variant's name.
    pub fn name(&self) -> &str
        ensures { result.now ≡ record_fault_name self.now }
    {
        match self {
            RecordFault::Header => "Header",
            RecordFault::TooLong => "TooLong",
            RecordFault::Line(_) => "Line",
            RecordFault::Thread(_) => "Thread",
            RecordFault::Memory => "Memory",
        }
    }
}
