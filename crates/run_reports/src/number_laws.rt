//! The numbers of the code are those of the definitions.

ghost use Rattle.std.specs.Prelude.{◌≡◌};
ghost use Rattle.run_reports.specs.Limits.{book_limit};

use crate::limits::BOOK_LIMIT;

/// Does nothing: its contract is that each number that the definitions state is the code's.
pub fn defined_numbers()
    ensures book_limit { BOOK_LIMIT ≡ book_limit }
{}
