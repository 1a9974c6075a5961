//! Rounding a quotient to a multiple of a step.

ghost use Rattle.std.specs.Prelude.{◌≡◌, ℕ, pos, ◌≤ℤ◌, ◌^◌, ◌≤◌, ◌+◌, ◌/◌, ◌<◌};
ghost use Rattle.std.specs.Int.RustNames.{unsigned_abs};
ghost use Rattle.farm_rounding.specs.Multiple.{IsAllowedStep, IsNearest, IsWithinAStep, nearest_multiple, rounds_up, steps_to, with_sign_of};

use crate::Mode;

/// The multiple of `step` that `num / den` is rounded to.
///
/// All three are in the unit of the figure; `step` is a step of the rounding table.
pub fn nearest(num: i128, den: i128, step: i64, mode: Mode) -> i128
    requires numerator { unsigned_abs num ≤ 10 ^ 36 }
    requires denominator_low { pos 1 ≤ℤ den }
    requires denominator_high { den ≤ℤ pos (10 ^ 20) }
    requires step { IsAllowedStep step }
    ensures nearest_multiple { result ≡ nearest_multiple mode num (unsigned_abs den) (unsigned_abs step) }
    ensures meaning { IsNearest mode num (unsigned_abs den) (unsigned_abs step) result }
    ensures size { IsWithinAStep (unsigned_abs num / unsigned_abs den) (unsigned_abs step) (unsigned_abs result) }
    ensures sign { pos 0 ≤ℤ num → pos 0 ≤ℤ result }
{
    let step = step.unsigned_abs() as u128;
    let size = steps_to(mode, num.unsigned_abs(), step * den.unsigned_abs()) * step;
    with_sign_of(num, size)
}

// The magnitude with the sign of `n`.
fn with_sign_of(n: i128, magnitude: u128) -> i128
    requires { magnitude < 2 ^ 127 }
    ensures { result ≡ with_sign_of n magnitude }
{
    let size = magnitude as i128;
    if n < 0 { -size } else { size }
}

// How many wholes the magnitude is rounded to.
#[tactic(auto, unfolding(crate::specs::Multiple::steps_to))]
fn steps_to(mode: Mode, magnitude: u128, whole: u128) -> u128
    requires magnitude { magnitude ≤ 10 ^ 36 }
    requires positive { 0 < whole }
    requires whole { whole ≤ 10 ^ 22 }
    ensures value { result ≡ steps_to mode magnitude whole }
    ensures size { result ≤ magnitude + 1 }
{
    let steps = magnitude / whole;
    let left = magnitude % whole;
    if rounds_up(mode, steps, left, whole) {
        steps + 1
    } else {
        steps
    }
}

// Whether what is left over the whole steps makes one step more.
fn rounds_up(mode: Mode, steps: u128, left: u128, whole: u128) -> bool
    requires { left < 10 ^ 37 }
    ensures { result ≡ rounds_up mode steps left whole }
{
    match mode {
        Mode::HalfAway => whole <= 2 * left,
        Mode::TowardZero => false,
        Mode::HalfEven => whole < 2 * left || (2 * left == whole && steps % 2 == 1),
    }
}
