//! The status of a store-exclusive: what is replied to it, and what its register takes.

/// The status of a store-exclusive that stored its value: 0 (DDI 0406C A8.8.212, STREX; for RISC-V that of SC, "Zalrsc").
pub const STATUS_STORED: u64 = 0;

/// The status of a store-exclusive that failed: 1, likewise.
pub const STATUS_FAILED: u64 = 1;
