//! The reading of two or three tapes.

ghost use Rattle.std.specs.Prelude.{◌≡◌, [], ◌∷◌, ◌+ℤ◌};
ghost use Rattle.farm_rounding.specs.Multiple.{IsNearest};
ghost use Rattle.farm_rounding.specs.Table.{row_at, rounded};
ghost use Rattle.farm_readings.specs.Readings.{IsTapeReading, are_close, is_close, tape_reading, tape_of_three, tape_of_two};
ghost use Rattle.farm_rounding.specs.declared.table.TheConstants.{TAPE_MEAN};

use farm_fixed::Mm;
use farm_rounding::{RoundTable, TAPE_MEAN, difference, nearest, sum};
use thiserror::Error;

/// By how many mm two of three tapes may differ.
pub const MOST_SPREAD: u64 = 3;

/// Why tapes give no reading.
#[derive(Clone, Copy, Debug, PartialEq, Eq, Error)]
pub enum TapeFault {
    /// There are neither two nor three of them.
    #[error("a reading has two or three tapes")]
    Count,
    /// Two tapes differ, or two of three by more than 3 mm.
    #[error("the tapes differ too much")]
    Spread,
}

/// The reading of two equal tapes, or the rounded mean of three of which each two differ by at most 3 mm.
pub fn tape(tapes: &[Mm], rounding: &RoundTable) -> Result<Mm, TapeFault>
    ensures tape { result ≡ tape_reading rounding.now tapes.now }
    ensures meaning { IsTapeReading rounding.now tapes.now result }
{
    match tapes {
        [first, second] => tape_of_two(*first, *second),
        [first, second, third] => tape_of_three(*first, *second, *third, rounding),
        _ => Err(TapeFault::Count),
    }
}

// The reading of two tapes.
fn tape_of_two(first: Mm, second: Mm) -> Result<Mm, TapeFault>
    ensures { result ≡ tape_of_two first second }
{
    if first.get() != second.get() {
        return Err(TapeFault::Spread);
    }
    Ok(first)
}

// The reading of three tapes.
fn tape_of_three(first: Mm, second: Mm, third: Mm, rounding: &RoundTable) -> Result<Mm, TapeFault>
    ensures value { result ≡ tape_of_three rounding.now first second third }
    ensures meaning { IsTapeReading rounding.now (first ∷ second ∷ third ∷ []) result }
{
    if are_close(first, second, third) {
        Ok(mean_of_three(first, second, third, rounding))
    } else {
        Err(TapeFault::Spread)
    }
}

// Whether each two of three tapes are close.
fn are_close(first: Mm, second: Mm, third: Mm) -> bool
    ensures { result ≡ are_close first second third }
{
    is_close(first, second) && is_close(second, third) && is_close(first, third)
}

// Whether two of three tapes differ by no more than they may.
fn is_close(first: Mm, second: Mm) -> bool
    ensures { result ≡ is_close first second }
{
    difference(first.get(), second.get()).unsigned_abs() <= MOST_SPREAD
}

// The mean of three tapes, rounded.
fn mean_of_three(first: Mm, second: Mm, third: Mm, rounding: &RoundTable) -> Mm
    ensures value { result ≡ rounded rounding.now TAPE_MEAN (first +ℤ second +ℤ third) 3 }
    ensures meaning { IsNearest (row_at rounding.now TAPE_MEAN).1 (first +ℤ second +ℤ third) 3 (row_at rounding.now TAPE_MEAN).0 result }
{
    let (step, mode) = rounding.row(TAPE_MEAN);
    let two = sum(i128::from(first.get()), i128::from(second.get()));
    Mm::in_range(nearest(sum(two, i128::from(third.get())), 3, step, mode))
}
