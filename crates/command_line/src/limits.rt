//! The limits of the numbers that options have.

/// The most digits of a number.
pub const MOST_NUMBER_DIGITS: usize = 20;

/// The least port.
pub const LEAST_PORT: u64 = 1;

/// The greatest port.
pub const MOST_PORT: u64 = 65_535;

/// The least number of workers.
pub const LEAST_WORKERS: u64 = 1;

/// The greatest number of workers.
pub const MOST_WORKERS: u64 = 8;

/// The greatest number of rounds.
pub const MOST_ROUNDS: u64 = 100_000_000;

/// The greatest seed.
pub const MOST_SEED: u64 = 18_446_744_073_709_551_615;

/// The greatest count of a drill.
pub const MOST_DRILLED: u64 = 60_000;
