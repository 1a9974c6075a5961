//! The nearest of listed quantities, by a binary search.

ghost use Rattle.std.specs.Prelude.{◌≡◌, ◌<◌, ◌↔◌, ◌-◌, length, IsTrue};
ghost use Rattle.std.specs.Int.RustNames.{unsigned_abs};
ghost use Rattle.farm_fixed.specs.Range.{distance};
ghost use Rattle.farm_vcf.specs.Closest.{IsCovered, IsFirstNotBelow, Rises, closest, is_covered, is_taken_over, wins_tie};

use farm_fixed::{Quantity, Unit};
use farm_rounding::Mode;

/// Whether each quantity is greater than the one before.
pub(crate) fn rises<U: Unit + Copy>(listed: &[Quantity<U>]) -> bool
    ensures { IsTrue result ↔ Rises listed.now }
{
    for index in 1..listed.len() {
        if listed[index].get() <= listed[index - 1].get() {
            return false;
        }
    }
    true
}

/// Whether a quantity is neither below the first listed one nor above the last.
pub(crate) fn is_covered<U: Unit + Copy>(value: Quantity<U>, listed: &[Quantity<U>]) -> bool
    requires { 0 < length listed.now }
    ensures { result ≡ is_covered value listed.now }
{
    listed[0].get() <= value.get() && value.get() <= listed[listed.len() - 1].get()
}

/// The index of the listed quantity that is taken for this one.
pub(crate) fn closest<U: Unit + Copy>(
    mode: Mode,
    value: Quantity<U>,
    listed: &[Quantity<U>],
) -> usize
    requires some { 0 < length listed.now }
    requires rises { Rises listed.now }
    requires covered { IsCovered value listed.now }
    ensures value { result ≡ closest mode value listed.now }
    ensures within { result < length listed.now }
{
    let above = first_not_below(value, listed);
    if above > 0 && is_taken_over(mode, value, listed[above - 1], listed[above]) {
        above - 1
    } else {
        above
    }
}

// The index of the first listed quantity that isn't below this one.
fn first_not_below<U: Unit + Copy>(value: Quantity<U>, listed: &[Quantity<U>]) -> usize
    requires rises { Rises listed.now }
    ensures { IsFirstNotBelow value listed.now result }
{
    listed.partition_point(|other| other.get() < value.get())
}

// Whether one listed quantity is taken for the value and not another.
fn is_taken_over<U: Unit + Copy>(
    mode: Mode,
    value: Quantity<U>,
    taken: Quantity<U>,
    other: Quantity<U>,
) -> bool
    ensures { result ≡ is_taken_over mode value taken other }
{
    let near = distance(value, taken);
    let far = distance(value, other);
    near < far || far == near && wins_tie(mode, taken.get(), other.get())
}

// How far two quantities lie apart, in units.
fn distance<U: Unit + Copy>(value: Quantity<U>, other: Quantity<U>) -> u64
    ensures { result ≡ distance value other }
{
    value.get().abs_diff(other.get())
}

// Whether of two numbers at the same distance the first is taken.
fn wins_tie(mode: Mode, taken: i64, other: i64) -> bool
    ensures { result ≡ wins_tie mode taken other }
{
    let size = taken.unsigned_abs();
    let other_size = other.unsigned_abs();
    match mode {
        Mode::HalfAway | Mode::HalfEven => other_size < size || other_size == size && other < taken,
        Mode::TowardZero => size < other_size || other_size == size && other < taken,
    }
}
