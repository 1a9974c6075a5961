//! Why an input is refused, and at which line.

use farm_fixed::ChainRule;

/// What is wrong with an input.
#[derive(Clone, Copy, Debug, PartialEq, Eq)]
pub enum Cause {
    /// It isn't in the form.
    Form,
    /// It is in the form, and the calculation refuses it.
    Chain(ChainRule),
}

/// An input that is refused.
#[derive(Clone, Copy, Debug, PartialEq, Eq)]
pub struct Refused {
    /// The number of the line, counted from 1.
    pub line: u64,
    /// What is wrong there.
    pub cause: Cause,
}
