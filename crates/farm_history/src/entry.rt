//! Entries of a history.

use crate::Command;

/// A command as it stands in a history.
#[derive(Debug, Drop, PartialEq, Eq)]
pub struct Entry {
    /// The number of the caller that made it.
    pub caller: u32,
    /// The account that it speaks for.
    pub account: u32,
    /// The account's own key of the request: under one key a command acts once.
    pub key: u64,
    /// When it was recorded, in seconds since 1970-01-01 00:00:00 UTC, from 0 to 253,000,000,000.
    pub at: i64,
    /// The command.
    pub cmd: Command,
}
