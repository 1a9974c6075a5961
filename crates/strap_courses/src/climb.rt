//! A climb up the courses of a shell: what they hold up to one height after another, each at least the one before it.

ghost use Rattle.std.specs.Prelude.{◌≡◌, ℕ, List, ◌≤◌, ◌^◌};
ghost use Rattle.std.specs.Int.RustNames.{unsigned_abs};
ghost use Rattle.farm_fixed.specs.declared.limits.TheConstants.{MOST_HEIGHT};
ghost use Rattle.strap_courses.specs.declared.parts.Course.{Course};
ghost use Rattle.strap_courses.specs.Courses.{held_between, height_of};
ghost use Rattle.strap_courses.specs.Passes.{IsClimb};

use crate::Course;
use crate::heights::millimetres;
use crate::shell::held_by;

/// How far a climb has come.
#[derive(Drop)]
pub(crate) struct Climb {
    /// The index of the course that it has come to.
    pub course: usize,
    /// Where that course begins.
    pub from: u64,
    /// What the courses below that one hold, times `per_litre`.
    pub below: u128,
}

impl Climb {
    /// A climb that begins at the datum plate.
    pub fn begin() -> Climb
        ensures climb { (low : ℕ) → (courses : List Course) → IsClimb low courses result }
        ensures from { result.from ≡ 0 }
    {
        Climb {
            course: 0,
            from: 0,
            below: 0,
        }
    }

    /// What the courses hold between `low`, which is the same in each call, and a height, times `per_litre`.
    pub fn held_up_to(&mut self, courses: &[Course], low: u64, high: u64) -> u128
        requires height { height_of courses.now ≤ unsigned_abs MOST_HEIGHT }
        requires climb { IsClimb low courses.now self.old }
        requires not_above { self.old.from ≤ high }
        ensures value { result ≡ held_between low high 0 courses.now }
        ensures size { result ≤ 10 ^ 26 }
        ensures climb { IsClimb low courses.now self.new }
        ensures not_above { self.new.from ≤ high }
    {
        for index in self.course..courses.len() {
            let course = &courses[index];
            let to = self.from + millimetres(course.height);
            if high < to {
                return self.below + held_by(course, low, high, self.from, to);
            }
            self.below += held_by(course, low, to, self.from, to);
            self.from = to;
            self.course = index + 1;
        }
        self.below
    }
}
