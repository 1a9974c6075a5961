//! What the value of an option has to be.

ghost use Rattle.std.specs.Prelude.{◌≡◌, ◌≤◌, IfSome};
ghost use Rattle.command_line.specs.Tests.{IsWithin, number_by, takes_value};

use crate::numbers::number_between;
use calendar_days::read_day;

/// What the value of an option has to be, beside that it isn't empty and doesn't begin with a minus.
#[derive(Clone, Copy)]
pub enum ValueRule {
    /// Any text.
    Text,
    /// A number, with the least and the greatest one.
    Number(u64, u64),
    /// A day.
    Day,
}

impl ValueRule {
    /// Whether a text is such a value.
    pub(crate) fn takes(self, text: &str) -> bool
        ensures takes { result ≡ takes_value self text.now }
    {
        match self {
            ValueRule::Text => true,
            ValueRule::Number(least, most) => number_between(least, most, text).is_some(),
            ValueRule::Day => read_day(text.as_bytes()).is_ok(),
        }
    }

    /// The number that a text is; `None` if the value is to be no number.
    pub(crate) fn number(self, text: &str) -> Option<u64>
        ensures value { result ≡ number_by self text.now }
        ensures most { IfSome result (λ number. IsWithin self number) }
    {
        match self {
            ValueRule::Number(least, most) => number_between(least, most, text),
            ValueRule::Text | ValueRule::Day => None,
        }
    }
}
