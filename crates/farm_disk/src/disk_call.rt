//! Calls that a disk in memory keeps.

use farm_ports::Bytes;

/// A write or a sync that a disk has begun. It takes two moments: at the first it has begun, and at the second it is over.
#[derive(Debug, Drop)]
pub enum DiskCall {
    /// A write of bytes at an offset, and whether it succeeded.
    Write { at: u64, bytes: Bytes, done: bool },
    /// A sync, and whether it succeeded.
    Sync { done: bool },
}
