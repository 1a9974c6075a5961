//! The numbers of the code are those of the definitions.

ghost use Rattle.std.specs.Prelude.{◌≡◌};
ghost use Rattle.strap_table.specs.Limits.{least_rows, most_rows};

use crate::faults::{LEAST_ROWS, MOST_ROWS};

/// Does nothing: its contract is that each number that the definitions state is the code's.
pub fn defined_numbers()
    ensures least_rows { LEAST_ROWS ≡ least_rows }
    ensures most_rows { MOST_ROWS ≡ most_rows }
{}
