//! The numbers of a command where none are given.

/// The bytes of memory.
pub const DEFAULT_MEM: u64 = 1_048_576;

/// The steps of a thread.
pub const DEFAULT_BUDGET: u64 = 100_000_000;

/// The threads of a run.
pub const RUN_THREADS: u64 = 2;

/// How many threads each thread of a run may start.
pub const RUN_SPARE: u64 = 0;

/// The number of the granule of a run.
pub const RUN_GRANULE: u64 = 0;

/// The classes that the rows of a run are dealt out to.
pub const RUN_CLASSES: u64 = 4096;

/// The most writes of a class of a run.
pub const RUN_LIMIT: u64 = 1 << 62;

/// The workers of a pool.
pub const POOL_WORKERS: u64 = 2;

/// The steps that a guest of a pool runs at a time.
pub const POOL_SLICE: u64 = 1000;

/// The steps of a thread of a run that its threads record; its other numbers are those of a run.
pub const RECORD_BUDGET: u64 = 10_000;

/// The threads of a trace.
pub const TRACE_THREADS: u64 = 2;

/// The number of the granule of a trace.
pub const TRACE_GRANULE: u64 = 0;

/// The seed of a trace.
pub const TRACE_SEED: u64 = 0;

/// The steps of a thread of a trace.
pub const TRACE_BUDGET: u64 = 10_000;

/// The threads of a load.
pub const LOAD_THREADS: u64 = 2;

/// The rounds of each thread of a load.
pub const LOAD_ROUNDS: u64 = 1000;
