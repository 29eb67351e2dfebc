//! The verdict on a record, with its reasons.
ghost use Rattle.std.specs.Prelude.{◌≡◌};
ghost use Rattle.run_checker.specs.Verdict.{reason_name};

/// Why an access of a record is wrong, in the order in which it is looked for.
#[derive(Clone, Copy, Debug, PartialEq, Eq)]
pub enum Reason {
    /// Its thread has stopped, given its accesses before.
    AfterStop,
    /// Its thread's next access has another deed or place, or stores another value.
    NotAsked,
    /// It is a load, and memory has another value at this point.
    WrongValue,
    /// It is a store-exclusive that stored, and its thread isn't marked on the row.
    NoReservation,
    /// No access is wrong, and some thread still asks for one.
    Unfinished,
}

impl Reason {
    /// The variant's name.
    pub fn name(&self) -> &str
        ensures { result.now ≡ reason_name self.now }
    {
        match self {
            Reason::AfterStop => "AfterStop",
            Reason::NotAsked => "NotAsked",
            Reason::WrongValue => "WrongValue",
            Reason::NoReservation => "NoReservation",
            Reason::Unfinished => "Unfinished",
        }
    }
}

/// Whether a record is a run of its program on legal memory.
#[derive(Clone, Copy, Debug, PartialEq, Eq)]
pub enum Verdict {
    /// Each access is right, and each thread has stopped.
    Good,
    /// The first access that is wrong, counted from 0, and why; or, as `Unfinished`, the number of accesses.
    Bad { index: u32, reason: Reason },
}
