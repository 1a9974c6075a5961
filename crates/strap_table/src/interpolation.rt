//! Volumes between two rows.

ghost use Rattle.std.specs.Prelude.{◌≡◌, ◌≤◌, ◌*◌, ◌^◌, pos, ◌≤ℤ◌};
ghost use Rattle.std.specs.Int.RustNames.{unsigned_abs};
ghost use Rattle.farm_fixed.specs.Range.{IsWithin, IsVolume};
ghost use Rattle.farm_rounding.specs.Multiple.{IsAllowedStep, nearest_multiple};
ghost use Rattle.strap_table.specs.Capacity.{tenths_between};

use farm_fixed::Litres;
use farm_rounding::{Mode, difference, nearest, product, sum};

/// The volume a number of mm above a row, in tenths of a litre.
pub(crate) fn between(row: i64, next: i64, over: i64) -> i64
    requires row { IsVolume row }
    requires next { IsVolume next }
    requires rising { row ≤ℤ next }
    requires over { IsWithin (pos 0) (pos 9) over }
    ensures value { result ≡ tenths_between row next over }
    ensures range { IsWithin (pos 0) (pos (10 ^ 10)) result }
{
    let below = product::<10, 1_000_000_000>(10, row);
    let above = product::<2_000_000_000, 9>(difference(next, row), over);
    sum(below, above) as i64
}

/// A volume in parts of a litre, `PARTS` to the litre, rounded to a step.
pub(crate) fn volume<const PARTS: u64>(parts: i64, step: i64, mode: Mode) -> Litres
    requires some { 1 ≤ PARTS }
    requires few { PARTS ≤ 10 }
    requires parts { IsWithin (pos 0) (pos (PARTS * 10 ^ 9)) parts }
    requires step { IsAllowedStep step }
    ensures value { result ≡ nearest_multiple mode parts PARTS (unsigned_abs step) }
    ensures range { IsVolume result }
{
    Litres::in_range(nearest(parts as i128, PARTS as i128, step, mode))
}
