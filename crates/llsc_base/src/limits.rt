//! Where code begins, and the most steps of a budget.

/// Where code begins in memory: that of a flat file, and that of a program which the assembler makes.
pub const CODE_START: u32 = 0x1000;

/// The most steps of a thread's budget.
pub const MOST_STEPS: u64 = 1_000_000_000_000;
