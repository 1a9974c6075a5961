//! What stands inside a tank: what the rounded parts of the deadwoods rise by from row to row.

ghost use Rattle.std.specs.Prelude.{◌≡◌, ℕ, ◌≤◌, ◌<◌, ◌+◌, ◌-◌, ◌*◌, ◌^◌, All, IfOk, IsTrue, length, pos, slice_index_or};
ghost use Rattle.std.specs.Int.RustNames.{unsigned_abs};
ghost use Rattle.farm_fixed.specs.declared.limits.TheConstants.{MOST_HEIGHT};
ghost use Rattle.farm_rounding.specs.Multiple.{is_step, with_sign_of};
ghost use Rattle.strap_courses.specs.Faults.{IsDeadwood};
ghost use Rattle.strap_courses.specs.Passes.{AreRises, HasRisen, part_at, rows_below};

use crate::Deadwood;
use crate::heights::millimetres;
use crate::quotient::{divided, quotient_sum, rounded_wholes};
use farm_fixed::Mm;
use farm_rounding::{DEADWOOD_PART, Mode, RoundTable, nearest, sum, wide_difference};
use std::alloc::{AllocError, Global};

/// What the parts of the deadwoods, of which there may be any number, rise by at each of `count` rows. Each deadwood touches
/// the rows within its own heights alone, and divides for none of them.
pub(crate) fn rises(
    alloc: Global,
    rounding: &RoundTable,
    deadwoods: &[Deadwood],
    count: usize,
) -> Result<Vec<i128>, AllocError>
    requires deadwoods { All (IsDeadwood 0) deadwoods.now }
    requires count { 10 * count ≤ unsigned_abs MOST_HEIGHT + 10 }
    ensures count { IfOk result (λ rises. length rises.items ≡ count) }
    ensures rises { IfOk result (λ rises. AreRises rounding.now deadwoods.now rises.items) }
{
    let (step, mode) = rounding.row(DEADWOOD_PART);
    let step = step.unsigned_abs();
    let mut rises = vec![in alloc; 0; count]?;
    for deadwood in deadwoods {
        add_rises(step, mode, deadwood, &mut rises);
    }
    Ok(rises)
}

// Adds to each row what the part of a deadwood rises by there.
fn add_rises(step: u64, mode: Mode, deadwood: &Deadwood, rises: &mut [i128])
    requires step { IsTrue (is_step step) }
    requires deadwood { IsDeadwood 0 deadwood.now }
    requires room { All (λ rise. unsigned_abs rise ≤ 10 ^ 36) rises.old }
    ensures count { length rises.new ≡ length rises.old }
    ensures rises { (row : ℕ) → row < length rises.old → HasRisen (step, mode) deadwood.now rises.old rises.new row }
{
    let before = add_slope(step, mode, deadwood, rises);
    let end = rows_below(deadwood.high);
    if end < rises.len() {
        let whole = nearest(i128::from(deadwood.litres), 1, step as i64, mode);
        rises[end] = sum(rises[end], wide_difference(whole, before));
    }
}

// Adds to each row below the high end of a deadwood what its part rises by there, and hands out the part at the last of them.
fn add_slope(step: u64, mode: Mode, deadwood: &Deadwood, rises: &mut [i128]) -> i128
    requires step { IsTrue (is_step step) }
    requires deadwood { IsDeadwood 0 deadwood.now }
    requires room { All (λ rise. unsigned_abs rise ≤ 10 ^ 36) rises.old }
    ensures count { length rises.new ≡ length rises.old }
    ensures below { (row : ℕ) → row < length rises.old → row < rows_below (unsigned_abs deadwood.now.high) → HasRisen (step, mode) deadwood.now rises.old rises.new row }
    ensures above { (row : ℕ) → row < length rises.old → rows_below (unsigned_abs deadwood.now.high) ≤ row → slice_index_or rises.new row (pos 0) ≡ slice_index_or rises.old row (pos 0) }
    ensures last { rows_below (unsigned_abs deadwood.now.high) < length rises.old → result ≡ part_at (step, mode) deadwood.now (rows_below (unsigned_abs deadwood.now.high) - 1) }
    ensures size { unsigned_abs result ≤ 10 ^ 15 }
{
    let low = millimetres(deadwood.low);
    let whole = step * (millimetres(deadwood.high) - low);
    let litres = deadwood.litres.unsigned_abs();
    let first = low / 10 + 1;
    let more = divided(10 * litres, whole);
    let mut part = divided(litres * (10 * first - low), whole);
    let mut before = 0;
    for row in first as usize..rises.len().min(rows_below(deadwood.high)) {
        let rounded = signed(deadwood.litres, rounded_wholes(mode, part, whole) * step);
        rises[row] = sum(rises[row], wide_difference(rounded, before));
        before = rounded;
        part = quotient_sum(part, more, whole);
    }
    before
}

// How many rows are below a height.
fn rows_below(height: Mm) -> usize
    ensures value { result ≡ rows_below (unsigned_abs height) }
    ensures most { 10 * result ≤ unsigned_abs MOST_HEIGHT }
{
    millimetres(height).div_ceil(10) as usize
}

// A magnitude with the sign of some litres.
fn signed(litres: i64, magnitude: u64) -> i128
    requires { magnitude ≤ 10 ^ 15 }
    ensures value { result ≡ with_sign_of litres magnitude }
    ensures size { unsigned_abs result ≤ 10 ^ 15 }
{
    let size = i128::from(magnitude);
    if litres < 0 { -size } else { size }
}
