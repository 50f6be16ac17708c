//! How much logs may have.

/// How many logs there may be: one of each process.
pub const MAX_LOGS: usize = 1_024;

/// How many lines a log may have.
pub const MAX_LINES: u32 = 10_000_000;

/// How many bytes a line may have.
pub const MAX_LINE: usize = 65_536;

/// How many bytes the word of a message or of a state may have.
pub const MAX_WORD: usize = 64;

/// How many deliveries a process may have.
pub const MAX_DELIVERIES: u64 = 4_294_967_295;
