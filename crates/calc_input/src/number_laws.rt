//! The numbers of the code are those of the definitions.

ghost use Rattle.std.specs.Prelude.{◌≡◌};
ghost use Rattle.calc_input.specs.Limits.{most_digits, most_input_bytes};

use crate::answer::MOST_INPUT_BYTES;
use crate::fields::MOST_DIGITS;

/// Does nothing: its contract is that each number that the definitions state is the code's.
pub fn defined_numbers()
    ensures most_input_bytes { MOST_INPUT_BYTES ≡ most_input_bytes }
    ensures most_digits { MOST_DIGITS ≡ most_digits }
{}
