//! The numbers of the code are those of the definitions.

ghost use Rattle.std.specs.Prelude.{◌≡◌};
ghost use Rattle.batch_lines.specs.Limits.{line_feed, most_request_line_bytes, most_bytes};

use crate::limits::{LINE_FEED, MOST_BYTES, MOST_REQUEST_LINE_BYTES};

/// Does nothing: its contract is that each number that the definitions state is the code's.
pub fn defined_numbers()
    ensures line_feed { LINE_FEED ≡ line_feed }
    ensures most_request_line_bytes { MOST_REQUEST_LINE_BYTES ≡ most_request_line_bytes }
    ensures most_bytes { MOST_BYTES ≡ most_bytes }
{}
