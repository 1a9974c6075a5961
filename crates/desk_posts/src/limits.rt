//! The limits of a connection.

/// The most requests of a connection.
pub const MOST_REQUESTS: u32 = 10_000;
