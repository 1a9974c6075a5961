//! Why a test fails.

use thiserror::Error;

/// How many comparisons of a test differ.
#[derive(Clone, Copy, Debug, Drop, Error)]
#[error("{0} comparisons differ")]
pub struct Differing(pub u64);
