//! What a command asks for by its values.
ghost use Rattle.std.specs.Prelude.{◌≡◌, IfSome};
ghost use Rattle.std.specs.Option.{option_map};
ghost use Rattle.llsc_words.specs.inner.Given.{seen};
ghost use Rattle.llsc_words.specs.Request.{asked, assemble_for, check_for, disassemble_for, explain_for, format_of, load_for, machine_for, pool_for, record_for, request_by, run_for, set_of, solo_for, trace_for, HasBudget};

use crate::defaults::{
    DEFAULT_BUDGET, DEFAULT_MEM, LOAD_ROUNDS, LOAD_THREADS, POOL_SLICE, POOL_WORKERS,
    RECORD_BUDGET, RUN_CLASSES, RUN_GRANULE, RUN_LIMIT, RUN_SPARE, RUN_THREADS, TRACE_BUDGET,
    TRACE_GRANULE, TRACE_SEED, TRACE_THREADS,
};
use crate::formats::Format;
use crate::given::Given;
use crate::names::CommandName;
use crate::numbers::{budget_or, number_in, number_or, spare_or, workers_or};
use crate::requests::{
    LoadNumbers, MachineNumbers, PoolNumbers, RecordNumbers, Request, RunNumbers, TraceNumbers,
};
use crate::sets::SetName;

impl Given<'_> {
    /// The format of the file.
    fn format(&self) -> Format
        ensures { result ≡ format_of (seen self.now) }
    {
        if !self.flat {
            return Format::Elf;
        }
        Format::Flat
    }

    /// The instruction set of the program.
    fn set(&self) -> SetName
        ensures { result ≡ set_of (seen self.now) }
    {
        if !self.rv {
            return SetName::A32;
        }
        SetName::Rv32
    }
}

/// What `solo` asks for.
fn solo<'a>(given: &Given<'a>) -> Option<Request<'a>>
    ensures request { option_map asked result ≡ solo_for (seen given.now) }
    ensures budget { IfSome result HasBudget }
{
    Some(Request::Solo {
        file: given.file?,
        format: given.format(),
        mem: number_or(DEFAULT_MEM, given.mem)?,
        budget: budget_or(DEFAULT_BUDGET, given.budget)?,
    })
}

/// The machine that `run`, `pool` or `record` asks for, with the threads that begin by themselves.
fn machine(given: &Given) -> Option<MachineNumbers>
    ensures { result ≡ machine_for (seen given.now) }
{
    Some(MachineNumbers {
        mem: number_or(DEFAULT_MEM, given.mem)?,
        threads: number_or(RUN_THREADS, given.threads)?,
        classes: number_or(RUN_CLASSES, given.classes)?,
        limit: number_or(RUN_LIMIT, given.limit)?,
        granule: number_or(RUN_GRANULE, given.granule)?,
    })
}

/// What `run` asks for.
fn run<'a>(given: &Given<'a>) -> Option<Request<'a>>
    ensures request { option_map asked result ≡ run_for (seen given.now) }
    ensures budget { IfSome result HasBudget }
{
    let set = given.set();
    Some(Request::Run {
        file: given.file?,
        format: given.format(),
        set,
        numbers: RunNumbers {
            machine: machine(given)?,
            spare: spare_or(RUN_SPARE, set, given.spare)?,
            budget: budget_or(DEFAULT_BUDGET, given.budget)?,
        },
    })
}

/// What `pool` asks for.
fn pool<'a>(given: &Given<'a>) -> Option<Request<'a>>
    ensures request { option_map asked result ≡ pool_for (seen given.now) }
    ensures budget { IfSome result HasBudget }
{
    Some(Request::Pool {
        file: given.file?,
        format: given.format(),
        numbers: PoolNumbers {
            machine: machine(given)?,
            workers: workers_or(POOL_WORKERS, given.workers)?,
            slice: budget_or(POOL_SLICE, given.slice)?,
            budget: budget_or(DEFAULT_BUDGET, given.budget)?,
        },
    })
}

/// What `record` asks for.
fn recorded<'a>(given: &Given<'a>) -> Option<Request<'a>>
    ensures request { option_map asked result ≡ record_for (seen given.now) }
    ensures budget { IfSome result HasBudget }
{
    Some(Request::Record {
        file: given.file?,
        format: given.format(),
        numbers: RecordNumbers {
            machine: machine(given)?,
            budget: budget_or(RECORD_BUDGET, given.budget)?,
        },
    })
}

/// What `asm` asks for.
fn assemble<'a>(given: &Given<'a>) -> Option<Request<'a>>
    ensures request { option_map asked result ≡ assemble_for (seen given.now) }
    ensures budget { IfSome result HasBudget }
{
    Some(Request::Assemble {
        file: given.file?,
        format: given.format(),
    })
}

/// What `dis` asks for.
fn disassemble<'a>(given: &Given<'a>) -> Option<Request<'a>>
    ensures request { option_map asked result ≡ disassemble_for (seen given.now) }
    ensures budget { IfSome result HasBudget }
{
    Some(Request::Disassemble {
        file: given.file?,
        format: given.format(),
        mem: number_or(DEFAULT_MEM, given.mem)?,
    })
}

/// What `trace` asks for.
fn trace<'a>(given: &Given<'a>) -> Option<Request<'a>>
    ensures request { option_map asked result ≡ trace_for (seen given.now) }
    ensures budget { IfSome result HasBudget }
{
    Some(Request::Trace {
        file: given.file?,
        format: given.format(),
        numbers: TraceNumbers {
            threads: number_or(TRACE_THREADS, given.threads)?,
            mem: number_or(DEFAULT_MEM, given.mem)?,
            granule: number_or(TRACE_GRANULE, given.granule)?,
            seed: number_or(TRACE_SEED, given.seed)?,
            budget: budget_or(TRACE_BUDGET, given.budget)?,
        },
    })
}

/// What `check` asks for.
fn check<'a>(given: &Given<'a>) -> Option<Request<'a>>
    ensures request { option_map asked result ≡ check_for (seen given.now) }
    ensures budget { IfSome result HasBudget }
{
    Some(Request::Check {
        file: given.file?,
        recorded: given.recorded?,
        format: given.format(),
        mem: number_or(DEFAULT_MEM, given.mem)?,
    })
}

/// What `explain` asks for.
fn explain<'a>(given: &Given<'a>) -> Option<Request<'a>>
    ensures request { option_map asked result ≡ explain_for (seen given.now) }
    ensures budget { IfSome result HasBudget }
{
    Some(Request::Explain {
        file: given.file?,
        recorded: given.recorded?,
        format: given.format(),
        mem: number_or(DEFAULT_MEM, given.mem)?,
    })
}

/// What `load` asks for.
fn load<'a>(given: &Given<'a>) -> Option<Request<'a>>
    ensures request { option_map asked result ≡ load_for (seen given.now) }
    ensures budget { IfSome result HasBudget }
{
    Some(Request::Load {
        numbers: LoadNumbers {
            seed: number_in(given.number)?,
            threads: number_or(LOAD_THREADS, given.threads)?,
            rounds: number_or(LOAD_ROUNDS, given.rounds)?,
            budget: budget_or(DEFAULT_BUDGET, given.budget)?,
        },
    })
}

/// What a command asks for.
pub fn request_by<'a>(name: CommandName, given: &Given<'a>) -> Option<Request<'a>>
    ensures request { option_map asked result ≡ request_by name (seen given.now) }
    ensures budget { IfSome result HasBudget }
{
    match name {
        CommandName::Solo => solo(given),
        CommandName::Run => run(given),
        CommandName::Pool => pool(given),
        CommandName::Record => recorded(given),
        CommandName::Asm => assemble(given),
        CommandName::Dis => disassemble(given),
        CommandName::Trace => trace(given),
        CommandName::Check => check(given),
        CommandName::Explain => explain(given),
        CommandName::Load => load(given),
    }
}
