//! The limits of what an office keeps.

/// The greatest value of a count (this project's own).
pub const COUNT_LIMIT: u64 = 1_000_000_000_000;

/// The greatest length of a note, a reason or a message, in bytes (this project's own).
pub const NOTE_LIMIT: usize = 1000;

/// The greatest number of a binary-only rebuild (this project's own).
pub const REBUILD_LIMIT: u64 = 999;

/// The greatest build priority; the least is as far below 0 (this project's own).
pub const BUILD_PRIORITY_LIMIT: i16 = 1000;
