//! The three ways of rounding.

/// Which multiple of the step a quotient is rounded to.
#[derive(Clone, Copy, Debug, PartialEq, Eq)]
pub enum Mode {
    /// The nearest, and of two at equal distance the one further from zero.
    HalfAway,
    /// The furthest from zero that isn't beyond the quotient.
    TowardZero,
    /// The nearest, and of two at equal distance the one that is an even number of steps.
    HalfEven,
}
