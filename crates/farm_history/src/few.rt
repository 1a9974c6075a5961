//! Short lists of numbers.

/// At most eight numbers, in their order.
///
/// It is well formed where the count is at most 8 and each number from there on is 0.
#[derive(Clone, Copy, Debug, PartialEq, Eq)]
pub struct Few {
    /// How many numbers there are.
    pub count: u8,
    /// The numbers, then zeros.
    pub values: [i64; 8],
}
