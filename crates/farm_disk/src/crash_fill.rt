//! Which of the images that a crash may leave.

/// What a crash leaves where it may leave any byte.
#[derive(Clone, Copy, Debug, PartialEq, Eq)]
pub enum Fill {
    /// The bytes that the last good sync left: no write since has reached the disk.
    Old,
    /// The bytes that were written: each write since the last good sync has reached the disk, also one that failed.
    New,
    /// This byte at each position that a write since the last good sync covers, and at each position past the bytes that the
    /// sync left, up to the end of the write that reaches furthest.
    Byte(u8),
}
