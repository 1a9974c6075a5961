//! The bottom of a tank: the volume up to a height within it.

ghost use Rattle.std.specs.Prelude.{◌≡◌, ◌≤◌, ◌<◌, ◌*◌, ◌^◌, None, pos, ◌<ℤ◌};
ghost use Rattle.std.specs.Int.RustNames.{unsigned_abs};
ghost use Rattle.farm_fixed.specs.Range.{IsWithin};
ghost use Rattle.farm_fixed.specs.declared.limits.TheConstants.{MOST_HEIGHT, MOST_LITRES};
ghost use Rattle.strap_courses.specs.Courses.{between_points, bottom_height, bottom_volume, last_point};
ghost use Rattle.strap_courses.specs.Faults.{bad_point};
ghost use Rattle.strap_courses.specs.Rows.{rounded_litres};

use crate::heights::millimetres;
use farm_fixed::Mm;
use farm_rounding::{RoundTable, STRAPPED_ROW, difference, product, sum};

/// The height of a bottom.
pub(crate) fn bottom_height(bottom: &[(Mm, i64)]) -> u64
    ensures value { result ≡ bottom_height bottom.now }
    ensures most { result ≤ unsigned_abs MOST_HEIGHT }
{
    match bottom.last() {
        Some((height, _)) => millimetres(*height),
        None => 0,
    }
}

/// The volume of a whole bottom.
pub(crate) fn whole_bottom(bottom: &[(Mm, i64)]) -> i64
    requires { bad_point bottom.now ≡ None }
    ensures value { result ≡ (last_point bottom.now).1 }
    ensures range { IsWithin (pos 0) MOST_LITRES result }
{
    match bottom.last() {
        Some((_, litres)) => *litres,
        None => 0,
    }
}

/// A row within the bottom.
pub(crate) fn bottom_row(rounding: &RoundTable, bottom: &[(Mm, i64)], height: u64) -> i128
    requires points { bad_point bottom.now ≡ None }
    requires height { height ≤ unsigned_abs MOST_HEIGHT }
    ensures value { result ≡ rounded_litres rounding.now STRAPPED_ROW (bottom_volume bottom.now height) }
    ensures size { unsigned_abs result ≤ 10 ^ 30 }
{
    for i in 1..bottom.len() {
        if height < millimetres(bottom[i].0) {
            return row_between(rounding, bottom[i - 1], bottom[i], height);
        }
    }
    rounding.round(STRAPPED_ROW, i128::from(whole_bottom(bottom)), 1)
}

// A row between two points of a bottom.
fn row_between(rounding: &RoundTable, low: (Mm, i64), high: (Mm, i64), height: u64) -> i128
    requires higher { low.0 <ℤ high.0 }
    requires low { IsWithin (pos 0) MOST_LITRES low.1 }
    requires high { IsWithin (pos 0) MOST_LITRES high.1 }
    requires height { height ≤ unsigned_abs MOST_HEIGHT }
    ensures value { result ≡ rounded_litres rounding.now STRAPPED_ROW (between_points low high height) }
    ensures size { unsigned_abs result ≤ 10 ^ 30 }
{
    let rise = difference(high.0.get(), low.0.get());
    let over = difference(height as i64, low.0.get());
    let below = product::<1_000_000_000, 100_000>(low.1, rise);
    let above = product::<2_000_000_000, 100_000>(difference(high.1, low.1), over);
    rounding.round(STRAPPED_ROW, sum(below, above), i128::from(rise))
}
