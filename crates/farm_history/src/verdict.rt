//! What the rules say of a command.

use crate::Rule;

/// What a history says of one command more.
#[derive(Clone, Copy, Debug, PartialEq, Eq)]
pub enum Verdict {
    /// The same command stands under the same account and key at this place.
    Repeat(u32),
    /// The first rule that it breaks.
    Refused(Rule),
    /// It breaks no rule.
    Accept,
}
