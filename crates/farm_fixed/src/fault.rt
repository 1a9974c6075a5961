//! Why a number, or a text, isn't a quantity.

use thiserror::Error;

/// A number of units outside the range of its type.
#[derive(Clone, Copy, Debug, PartialEq, Eq, Error)]
#[error("the value is outside the range of its type")]
pub struct OutOfRange;

/// Why a text is no quantity of its type. The first of the causes below, in their order, is reported.
#[derive(Clone, Copy, Debug, PartialEq, Eq, Error)]
pub enum ReadFault {
    /// There are no bytes.
    #[error("the text is empty")]
    Empty,
    /// The text isn't that of a number. The offset, from 0, is that of the first byte after which no continuation is one,
    /// or the length of a text that ends too early.
    #[error("no number goes on like this at byte {0}")]
    BadByte(usize),
    /// The fraction has more digits than the type has decimals.
    #[error("more decimals than the type has")]
    TooFine,
    /// The number is outside the range of the type.
    #[error("the value is outside the range of its type")]
    OutOfRange,
}
