//! The courses of a shell: what they hold between two heights.

ghost use Rattle.std.specs.Prelude.{◌≡◌, ◌≤◌, ◌-◌, ◌*◌, ◌^◌, pos, ◌+ℤ◌, ◌-ℤ◌, ◌*ℤ◌};
ghost use Rattle.std.specs.Int.RustNames.{unsigned_abs};
ghost use Rattle.farm_fixed.specs.declared.limits.TheConstants.{MOST_HEIGHT};
ghost use Rattle.strap_courses.specs.Courses.{height_of, scaled_circumference, shared_height};

use crate::Course;
use crate::heights::millimetres;
use farm_rounding::difference;

// The sum of two lengths in 0.1 mm.
fn total(a: i64, b: i64) -> i64
    requires a { unsigned_abs a ≤ 10 ^ 7 }
    requires b { unsigned_abs b ≤ 10 ^ 7 }
    ensures value { result ≡ a +ℤ b }
    ensures size { unsigned_abs result ≤ 2 * 10 ^ 7 }
{
    a + b
}

// 113 times the sum of two circumferences, less 1,420 times a thickness.
fn scaled(circumferences: i64, thickness: i64) -> i64
    requires circumferences { unsigned_abs circumferences ≤ 2 * 10 ^ 7 }
    requires thickness { unsigned_abs thickness ≤ 2 * 10 ^ 7 }
    ensures value { result ≡ pos 113 *ℤ circumferences -ℤ pos 1420 *ℤ thickness }
    ensures size { unsigned_abs result ≤ 4 * 10 ^ 10 }
{
    113 * circumferences - 1_420 * thickness
}

/// 226 times the mean internal circumference of a course, in 0.1 mm.
pub(crate) fn scaled_circumference(course: &Course) -> i64
    ensures value { result ≡ scaled_circumference course.now }
    ensures size { unsigned_abs result ≤ 4 * 10 ^ 10 }
{
    let lower = difference(course.lower.get(), course.lower_off.get());
    let upper = difference(course.upper.get(), course.upper_off.get());
    let thickness = total(course.plate.get(), course.paint.get());
    scaled(total(lower, upper), thickness)
}

// What one mm of a course holds, times `per_litre`.
fn held_by_one(course: &Course) -> u128
    ensures value { result ≡ unsigned_abs (scaled_circumference course.now) ^ 2 }
    ensures size { result ≤ 2 * 10 ^ 21 }
{
    let scaled = u128::from(scaled_circumference(course).unsigned_abs());
    scaled * scaled
}

// How many mm two spans share.
fn shared_height(low: u64, high: u64, from: u64, to: u64) -> u64
    requires { from ≤ to }
    ensures value { result ≡ shared_height low high from to }
    ensures most { result ≤ to - from }
{
    high.min(to).saturating_sub(low.max(from))
}

/// The height of all courses, of which there may be any number.
pub(crate) fn height(courses: &[Course]) -> u128
    ensures { result ≡ height_of courses.now }
{
    let mut height = 0;
    for course in courses {
        height += u128::from(millimetres(course.height));
    }
    height
}

/// What a course that reaches from one height to another holds between two heights, times `per_litre`.
pub(crate) fn held_by(course: &Course, low: u64, high: u64, from: u64, to: u64) -> u128
    requires order { from ≤ to }
    requires height { to ≤ unsigned_abs MOST_HEIGHT }
    ensures value { result ≡ unsigned_abs (scaled_circumference course.now) ^ 2 * shared_height low high from to }
    ensures size { result ≤ 2 * 10 ^ 21 * (to - from) }
{
    held_by_one(course) * u128::from(shared_height(low, high, from, to))
}
