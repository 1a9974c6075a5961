//! Numbers as the values of options.

ghost use Rattle.std.specs.Prelude.{◌≡◌, ◌≤◌, IfSome};
ghost use Rattle.command_line.specs.Numbers.{number_between};

use crate::limits::MOST_NUMBER_DIGITS;
use farm_base::is_all_digits;

/// The number that a text is, if it is within these limits.
#[tactic(auto, unfolding(crate::specs::Numbers::number_between))]
pub(crate) fn number_between(least: u64, most: u64, text: &str) -> Option<u64>
    ensures value { result ≡ number_between least most text.now }
    ensures most { IfSome result (λ number. number ≤ most) }
{
    if text.is_empty() || text.len() > MOST_NUMBER_DIGITS || !is_all_digits(text.as_bytes()) {
        return None;
    }
    let number = text.parse::<u64>().ok()?;
    if number < least || number > most {
        return None;
    }
    Some(number)
}
