//! The numbers of lines.

/// The account of a line is as many more than this as its number is.
pub const LINE_ACCOUNTS: u32 = 1_000_000;

/// How many keys a line has for each number of entries that its desk may be opened with.
pub const KEYS_APART: u64 = 4_294_967_296;

/// The most rounds of a run.
pub const MOST_ROUNDS: u32 = 100_000_000;
