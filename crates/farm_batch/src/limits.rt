//! The limits of a batch, and the number of its caller.

/// The number of the one caller of a batch.
pub const BATCH_CALLER: u32 = 0;

/// The most lines of a batch.
pub const MOST_LINES: u64 = 1_000_000;

/// The most bytes of answers that are put at once.
pub const MOST_PUT_BYTES: usize = 65_536;
