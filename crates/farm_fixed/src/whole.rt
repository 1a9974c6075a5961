//! Whole numbers of 64 bits, digit by digit.

ghost use Rattle.std.specs.Prelude.{◌≡◌};
ghost use Rattle.farm_fixed.specs.Whole.{whole_number};

use crate::parsing::{digit_run, is_negative, unsigned_text, with_sign};

// This number of digits writes at most 10^18 - 1.
const MOST_DIGITS: usize = 18;

/// The whole number that a text writes: an optional minus and 1 to 18 digits. Zeros in front are read.
#[tactic(auto, unfolding(crate::specs::Whole::whole_number))]
pub fn whole_number(text: &[u8]) -> Option<i64>
    ensures whole_number { result ≡ whole_number text.now }
{
    let digits = unsigned_text(text);
    let run = digit_run(0, digits);
    if run.count == 0 || run.count < digits.len() || run.count > MOST_DIGITS {
        return None;
    }
    Some(with_sign(is_negative(text), run.value))
}
