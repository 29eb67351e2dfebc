//! What a call may ask for.
ghost use Rattle.std.specs.Prelude.{◌≡◌, ◌+◌, ◌-◌, ◌*◌, ◌^◌, min, None};
ghost use Rattle.llsc_base.specs.Sizes.{size_fault};
ghost use Rattle.llsc_words.specs.Request.{machine_by, size_of_run};

use crate::formats::Format;
use crate::sets::SetName;

/// The numbers that make a machine, in the order of `MachineSize`'s.
#[derive(Clone, Copy)]
pub struct MachineNumbers {
    /// The bytes of memory.
    pub mem: u64,
    /// The guest threads.
    pub threads: u64,
    /// The classes that rows are dealt out to.
    pub classes: u64,
    /// The most writes of a class, for a memory that counts them.
    pub limit: u64,
    /// The number of the granule, by which rows have their width.
    pub granule: u64,
}

/// The numbers of a run.
#[derive(Clone, Copy)]
pub struct RunNumbers {
    /// The machine, with the threads that begin by themselves.
    pub machine: MachineNumbers,
    /// How many threads each of these may start.
    pub spare: u64,
    /// The most steps of a thread.
    pub budget: u64,
}

/// How many threads there are where `first` begin by themselves and each of them may start `spare` more; where 64 bits don't hold
/// that number, the greatest that they hold.
#[tactic(auto, using(crate::proofs::Counted::saturated))]
fn all_threads(first: u64, spare: u64) -> u64
    ensures { result ≡ min (first * (1 + spare)) (2 ^ 64 - 1) }
{
    first.saturating_mul(spare.saturating_add(1))
}

impl RunNumbers {
    /// The machine, with all threads that it may have. Where 64 bits don't hold how many these are, it has the greatest number that
    /// they hold, and is refused as the machine of all threads is.
    pub fn whole_machine(&self) -> MachineNumbers
        ensures fault { size_fault (machine_by result) ≡ size_fault (size_of_run self.now) }
        ensures machine { size_fault (size_of_run self.now) ≡ None → machine_by result ≡ size_of_run self.now }
    {
        MachineNumbers {
            threads: all_threads(self.machine.threads, self.spare),
            ..self.machine
        }
    }
}

/// The numbers of a pool.
#[derive(Clone, Copy)]
pub struct PoolNumbers {
    /// The machine, all of whose threads begin by themselves.
    pub machine: MachineNumbers,
    /// The workers, from 1 to 4.
    pub workers: u64,
    /// The steps that a guest runs at a time, at least 1.
    pub slice: u64,
    /// The most steps of a thread.
    pub budget: u64,
}

/// The numbers of a run that its threads record.
#[derive(Clone, Copy)]
pub struct RecordNumbers {
    /// The machine, all of whose threads begin by themselves.
    pub machine: MachineNumbers,
    /// The most steps of a thread.
    pub budget: u64,
}

/// The numbers of a trace.
#[derive(Clone, Copy)]
pub struct TraceNumbers {
    /// The guest threads.
    pub threads: u64,
    /// The bytes of memory.
    pub mem: u64,
    /// The number of the granule, by which rows have their width.
    pub granule: u64,
    /// The number that fixes the order of the threads' turns.
    pub seed: u64,
    /// The most steps of a thread.
    pub budget: u64,
}

/// The numbers of a load.
#[derive(Clone, Copy)]
pub struct LoadNumbers {
    /// The number that the counter guest is made of.
    pub seed: u64,
    /// The guest threads.
    pub threads: u64,
    /// The rounds of each thread.
    pub rounds: u64,
    /// The most steps of a thread.
    pub budget: u64,
}

/// What a call asks for.
#[derive(Clone, Copy)]
pub enum Request<'a> {
    /// To run the file of that name, of that format, as one thread, with so many bytes of memory and so many steps
    /// at most.
    Solo {
        file: &'a str,
        format: Format,
        mem: u64,
        budget: u64,
    },
    /// To run the file of that name, of that format and instruction set, as several threads beside each other, which may start
    /// more, by these numbers.
    Run {
        file: &'a str,
        format: Format,
        set: SetName,
        numbers: RunNumbers,
    },
    /// To run the file of that name, of that format, as several threads on few workers, by these numbers.
    Pool {
        file: &'a str,
        format: Format,
        numbers: PoolNumbers,
    },
    /// To run the file of that name, of that format, as several threads beside each other, by these numbers, and to record what each
    /// does.
    Record {
        file: &'a str,
        format: Format,
        numbers: RecordNumbers,
    },
    /// To assemble the text of that name as a file of that format.
    Assemble {
        file: &'a str,
        format: Format,
    },
    /// To disassemble the file of that name, of that format, in so many bytes of memory.
    Disassemble {
        file: &'a str,
        format: Format,
        mem: u64,
    },
    /// To run the file of that name, of that format, by these numbers, and to record the run.
    Trace {
        file: &'a str,
        format: Format,
        numbers: TraceNumbers,
    },
    /// To check a record, the second file, of a run of the file of that name, of that format, in so many bytes of
    /// memory.
    Check {
        file: &'a str,
        recorded: &'a str,
        format: Format,
        mem: u64,
    },
    /// To explain why store-exclusives of such a record failed. The fields are those of `Check`.
    Explain {
        file: &'a str,
        recorded: &'a str,
        format: Format,
        mem: u64,
    },
    /// To run the counter guest of these numbers, and to say what its threads counted.
    Load {
        numbers: LoadNumbers,
    },
}
