//! The lines of a batch, out of a source that gives them in pieces.
//!
//! A line ends before its line feed; what stands after the last line feed is a line too. A line of more than 65,536 bytes is read to
//! its end and not kept. The reader takes no more while a whole line is in hand, and says so, so that a caller can
//! answer all lines that it has before more is taken.
#![tactic(auto)]

mod limits;
mod number_laws;
mod reader;

pub use limits::{LINE_FEED, MOST_BYTES, MOST_REQUEST_LINE_BYTES};
pub use number_laws::defined_numbers;
pub use reader::{Cut, LineReader};
