//! What is wrong with parts: the faults, and the search for the first, each cause looked for over its whole list.

ghost use Rattle.std.specs.Prelude.{◌≡◌, Some};
ghost use Rattle.strap_courses.specs.declared.faults.StrapFault.TheVariants as variants;
ghost use Rattle.strap_courses.specs.Faults.{bad_course, bad_deadwood, bad_point, deducts_too_much, first_fault, follows, found, is_bad_course, is_bad_deadwood, is_bottom_volume, wrong_height};

use crate::bottom::bottom_height;
use crate::heights::millimetres;
use crate::shell::{height, scaled_circumference};
use crate::{Course, Deadwood};
use farm_fixed::{MOST_HEIGHT, MOST_LITRES, Mm};
use std::alloc::{AllocError, AllocFailed};
use thiserror::Error;

/// The least height of the courses of a tank, in mm: that of one row.
pub const LEAST_HEIGHT: u128 = 10;

/// Why parts are no strapped tank, or a strapped tank has no table. Each kind is looked for over its whole list before the
/// next, in this order but for `TooTall`, which is looked for before any row. Courses, deadwoods and points count from 1,
/// rows from 0.
#[derive(Clone, Copy, Debug, PartialEq, Eq, Error)]
pub enum StrapFault {
    /// There are no courses.
    #[error("a strapped tank has at least one course")]
    NoCourse,
    /// The first course without height, with a deduction above its circumference, or without an inside.
    #[error("course {0} has no height or no inside")]
    BadCourse(usize),
    /// The first deadwood without height, that begins below the top of the bottom, or of over 10^9 litres either way.
    #[error("deadwood {0} has no height, stands in the bottom or is too large")]
    BadDeadwood(usize),
    /// The first point of the bottom that isn't at height 0 (the first) or higher than the one before it (the others), with
    /// no less volume, from 0 to 10^9 litres; 1 where there are no points.
    #[error("point {0} of the bottom doesn't go on from the one before it")]
    BadBottom(usize),
    /// The first row below the one before it.
    #[error("row {0} is below the row before it")]
    NotRising(usize),
    /// The courses are lower than 10 mm, higher than 50,000 mm or lower than the bottom.
    #[error("the courses are too low or too high")]
    TooTall,
    /// The first row below 0 or over 10^9 litres.
    #[error("row {0} is outside 0 to 1000000000 litres")]
    TooLarge(usize),
    /// The call is out of memory.
    #[error("no memory")]
    NoMemory,
}

impl From<AllocError> for StrapFault {
    ghost from_gives = { λ _ fault. fault ≡ variants.NoMemory };

    fn from(_: AllocError) -> Self {
        StrapFault::NoMemory
    }
}

impl From<AllocFailed<i64>> for StrapFault {
    ghost from_gives = { λ _ fault. fault ≡ variants.NoMemory };

    fn from(_: AllocFailed<i64>) -> Self {
        StrapFault::NoMemory
    }
}

/// Why parts are no strapped tank, if they aren't one.
#[tactic(auto, unfolding(crate::specs::Faults::first_fault))]
pub(crate) fn first_fault(
    courses: &[Course],
    deadwoods: &[Deadwood],
    bottom: &[(Mm, i64)],
) -> Option<StrapFault>
    ensures first { first_fault (record { courses = courses.now; deadwoods = deadwoods.now; bottom = bottom.now }) ≡ found result }
    ensures takes_no_memory { ¬ (result ≡ Some variants.NoMemory) }
{
    if courses.is_empty() {
        return Some(StrapFault::NoCourse);
    }
    if let Some(number) = bad_course(courses) {
        return Some(StrapFault::BadCourse(number));
    }
    let top = bottom_height(bottom);
    if let Some(number) = bad_deadwood(top, deadwoods) {
        return Some(StrapFault::BadDeadwood(number));
    }
    if let Some(number) = bad_point(bottom) {
        return Some(StrapFault::BadBottom(number));
    }
    wrong_height(top, height(courses))
}

// The first bad course, counted from 1.
fn bad_course(courses: &[Course]) -> Option<usize>
    ensures { result ≡ bad_course 1 courses.now }
{
    for (index, course) in courses.iter().enumerate() {
        if is_bad_course(course) {
            return Some(index + 1);
        }
    }
    None
}

// Whether a course has no height, a deduction above its circumference, or no inside.
fn is_bad_course(course: &Course) -> bool
    ensures { result ≡ is_bad_course course.now }
{
    course.height.get() == 0 || deducts_too_much(course) || scaled_circumference(course) <= 0
}

// Whether a deduction is above its circumference.
fn deducts_too_much(course: &Course) -> bool
    ensures { result ≡ deducts_too_much course.now }
{
    course.lower.get() < course.lower_off.get() || course.upper.get() < course.upper_off.get()
}

// The first bad deadwood, counted from 1.
fn bad_deadwood(top: u64, deadwoods: &[Deadwood]) -> Option<usize>
    ensures { result ≡ bad_deadwood top 1 deadwoods.now }
{
    for (index, deadwood) in deadwoods.iter().enumerate() {
        if is_bad_deadwood(top, deadwood) {
            return Some(index + 1);
        }
    }
    None
}

// Whether a deadwood has no height, stands in the bottom, or has too much volume either way.
fn is_bad_deadwood(top: u64, deadwood: &Deadwood) -> bool
    ensures { result ≡ is_bad_deadwood top deadwood.now }
{
    deadwood.high.get() <= deadwood.low.get()
        || millimetres(deadwood.low) < top
        || deadwood.litres.unsigned_abs() > MOST_LITRES as u64
}

// The first bad point of a bottom, counted from 1.
fn bad_point(bottom: &[(Mm, i64)]) -> Option<usize>
    ensures { result ≡ bad_point bottom.now }
{
    if bottom.is_empty() || bottom[0].0.get() != 0 || !is_bottom_volume(bottom[0]) {
        return Some(1);
    }
    for index in 1..bottom.len() {
        if !follows(bottom[index - 1], bottom[index]) {
            return Some(index + 1);
        }
    }
    None
}

// Whether a point is higher than the one before it, with no less volume.
fn follows(before: (Mm, i64), point: (Mm, i64)) -> bool
    ensures { result ≡ follows before point }
{
    before.0.get() < point.0.get() && before.1 <= point.1 && is_bottom_volume(point)
}

// Whether the volume of a point is one that a bottom may have.
fn is_bottom_volume(point: (Mm, i64)) -> bool
    ensures { result ≡ is_bottom_volume point }
{
    0 <= point.1 && point.1 <= MOST_LITRES
}

// The fault of courses of this height over a bottom of that.
fn wrong_height(top: u64, height: u128) -> Option<StrapFault>
    ensures first { wrong_height top height ≡ found result }
    ensures takes_no_memory { ¬ (result ≡ Some variants.NoMemory) }
{
    if height < LEAST_HEIGHT || height > MOST_HEIGHT as u128 || height < u128::from(top) {
        return Some(StrapFault::TooTall);
    }
    None
}
