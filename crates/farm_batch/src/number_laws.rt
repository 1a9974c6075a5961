//! The numbers of the code are those of the definitions.

ghost use Rattle.std.specs.Prelude.{◌≡◌};
ghost use Rattle.farm_batch.specs.Limits.{batch_caller, most_lines, most_put_bytes};

use crate::limits::{BATCH_CALLER, MOST_LINES, MOST_PUT_BYTES};

/// Does nothing: its contract is that each number that the definitions state is the code's.
pub fn defined_numbers()
    ensures batch_caller { BATCH_CALLER ≡ batch_caller }
    ensures most_lines { MOST_LINES ≡ most_lines }
    ensures most_put_bytes { MOST_PUT_BYTES ≡ most_put_bytes }
{}
