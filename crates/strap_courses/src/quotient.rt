//! Quotients with what is left over, which are added without a division.

ghost use Rattle.std.specs.Prelude.{◌≡◌, ◌≤◌, ◌<◌, ◌+◌, ◌*◌, ◌^◌};
ghost use Rattle.farm_rounding.specs.Multiple.{rounds_up, steps_to};

use farm_rounding::Mode;

/// How many wholes a number has, and what is left over them.
#[derive(Clone, Copy)]
pub(crate) struct Quotient {
    /// How many wholes.
    pub wholes: u64,
    /// What is left, less than one whole.
    pub left: u64,
}

/// A number as wholes and what is left.
pub(crate) fn divided(number: u64, whole: u64) -> Quotient
    requires { 0 < whole }
    ensures number { result.wholes * whole + result.left ≡ number }
    ensures left { result.left < whole }
{
    Quotient {
        wholes: number / whole,
        left: number % whole,
    }
}

/// The sum of two quotients of the same whole.
pub(crate) fn quotient_sum(a: Quotient, b: Quotient, whole: u64) -> Quotient
    requires a { a.wholes * whole + a.left ≤ 10 ^ 15 }
    requires a_left { a.left < whole }
    requires b { b.wholes * whole + b.left ≤ 10 ^ 15 }
    requires b_left { b.left < whole }
    ensures number { result.wholes * whole + result.left ≡ (a.wholes * whole + a.left) + (b.wholes * whole + b.left) }
    ensures left { result.left < whole }
{
    let wholes = a.wholes + b.wholes;
    let left = a.left + b.left;
    if left < whole {
        Quotient { wholes, left }
    } else {
        Quotient {
            wholes: wholes + 1,
            left: left - whole,
        }
    }
}

/// To how many wholes a quotient is rounded.
#[tactic(auto, unfolding(farm_rounding::specs::Multiple::steps_to))]
pub(crate) fn rounded_wholes(mode: Mode, number: Quotient, whole: u64) -> u64
    requires number { number.wholes * whole + number.left ≤ 10 ^ 15 }
    requires left { number.left < whole }
    ensures value { result ≡ steps_to mode (number.wholes * whole + number.left) whole }
    ensures size { result ≤ number.wholes + 1 }
{
    if rounds_up(mode, number, whole) {
        number.wholes + 1
    } else {
        number.wholes
    }
}

// Whether what is left of a quotient makes one whole more.
fn rounds_up(mode: Mode, number: Quotient, whole: u64) -> bool
    requires { number.left ≤ 10 ^ 15 }
    ensures { result ≡ rounds_up mode number.wholes number.left whole }
{
    match mode {
        Mode::HalfAway => whole <= 2 * number.left,
        Mode::TowardZero => false,
        Mode::HalfEven => {
            whole < 2 * number.left || (2 * number.left == whole && number.wholes % 2 == 1)
        }
    }
}
