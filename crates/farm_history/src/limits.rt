//! Limits of a history and of its entries.

/// The most numbers in a list of a command.
pub const MOST_IN_LIST: u8 = 8;

/// The last moment that an entry may have, in seconds since 1970-01-01 00:00:00 UTC.
pub const LAST_MOMENT: i64 = 253_000_000_000;

/// The greatest limit of a book, in entries.
pub const MOST_LIMIT: usize = 1_000_000;

/// How many entries a history may have beyond its limit; each of them is a Stop.
pub const STOPS_BEYOND_LIMIT: usize = 1_000;

/// The most bytes that an entry may have.
pub const MOST_ENTRY_BYTES: usize = 256;
