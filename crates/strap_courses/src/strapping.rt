//! A strapped tank, and the rows of its capacity table.

ghost use Rattle.std.specs.Prelude.{◌≡◌, ◌≤◌, ◌+◌, ◌*◌, ◌^◌, IfErr, IfOk, IfSome, MatchResult, None, Err, Ok, Some};
ghost use Rattle.std.specs.Int.RustNames.{unsigned_abs};
ghost use Rattle.farm_base.specs.Steps.{IsRefusedAs};
ghost use Rattle.farm_fixed.specs.Range.{IsVolume};
ghost use Rattle.farm_fixed.specs.declared.limits.TheConstants.{MOST_HEIGHT};
ghost use Rattle.strap_courses.specs.declared.faults.StrapFault.TheVariants.{NoMemory};
ghost use Rattle.strap_courses.specs.Courses.{bottom_height, exact_volume};
ghost use Rattle.strap_courses.specs.Faults.{HaveFault, IsTank, first_fault, found, reported};
ghost use Rattle.strap_courses.specs.Passes.{IsClimb};
ghost use Rattle.strap_courses.specs.Rows.{HaveRowFault, IsStrappedTable, deadwood_parts, row_count, rounded_litres, strapped_row, strapped_rows, wrong_row};

use crate::bottom::{bottom_height, bottom_row, whole_bottom};
use crate::climb::Climb;
use crate::deadwood::rises;
use crate::faults::first_fault;
use crate::shell::height;
use crate::{Course, Deadwood, StrapFault};
use farm_fixed::{MOST_LITRES, Mm};
use farm_rounding::{RoundTable, STRAPPED_ROW, product, sum, wide_difference};
use std::alloc::Global;
use std::marker::Model;

// The square of a scaled circumference over this is what one mm of the course holds, in litres.
pub(crate) const PER_LITRE: u64 = 64_184_000_000_000;

/// A strapped tank: at least one course, what stands inside, and a bottom.
///
/// The bottom is the list of its points, each a height and the litres up to it. A flat one is the single point of no height
/// and no volume; a first point with a volume is a heel.
#[derive(Debug, Drop)]
pub struct Strapping {
    courses: Vec<Course>,
    deadwoods: Vec<Deadwood>,
    bottom: Vec<(Mm, i64)>,
}

impl Model for Strapping {
    ghost use Rattle.std.specs.Prelude.{◌≡◌, None};
    ghost use Rattle.strap_courses.specs.Courses.{StrappedTank};
    ghost use Rattle.strap_courses.specs.Faults.{first_fault};

    ghost Value = { StrappedTank };

    ghost view = { λ s. record { courses = s.courses.items; deadwoods = s.deadwoods.items; bottom = s.bottom.items } };

    ghost invariant = { λ s. first_fault (record { courses = s.courses.items; deadwoods = s.deadwoods.items; bottom = s.bottom.items }) ≡ None };
}

impl Strapping {
    /// The tank of these parts.
    ///
    /// The faults are looked for in the order of `StrapFault`, each over its whole list. Takes no memory.
    pub fn new(
        courses: Vec<Course>,
        deadwoods: Vec<Deadwood>,
        bottom: Vec<(Mm, i64)>,
    ) -> Result<Strapping, StrapFault>
        ensures first { MatchResult result
            (λ _. first_fault (record { courses = courses.items; deadwoods = deadwoods.items; bottom = bottom.items }) ≡ None)
            (λ fault. first_fault (record { courses = courses.items; deadwoods = deadwoods.items; bottom = bottom.items }) ≡ reported fault) }
        ensures meaning { MatchResult result
            (λ _. IsTank (record { courses = courses.items; deadwoods = deadwoods.items; bottom = bottom.items }))
            (λ fault. IfSome (reported fault) (HaveFault (record { courses = courses.items; deadwoods = deadwoods.items; bottom = bottom.items }))) }
        ensures takes_no_memory { ¬ (result ≡ Err NoMemory) }
        ensures parts { IfOk result (λ tank. tank ≡ record { courses = courses.items; deadwoods = deadwoods.items; bottom = bottom.items }) }
    {
        match first_fault(&courses, &deadwoods, &bottom) {
            Some(fault) => Err(fault),
            None => Ok(Strapping {
                courses,
                deadwoods,
                bottom,
            }),
        }
    }

    /// The rows of its capacity table, in litres: row i at 10 i mm, for each such height up to the sum of the courses.
    ///
    /// A row is the volume of bottom and courses by the rounding of strapped rows, less each deadwood's part by its own
    /// rounding. `TooLarge` or `NotRising` at the first row that is wrong, in this order at one row. Takes the memory of the
    /// rows and of as many sums in 128 bits.
    pub fn rows(&self, alloc: Global, rounding: &RoundTable) -> Result<Vec<i64>, StrapFault>
        ensures rows { MatchResult result (λ rows. strapped_rows rounding.now self.now ≡ Ok rows.items) (λ fault. IsRefusedAs (reported fault) (strapped_rows rounding.now self.now)) }
        ensures meaning { IfOk result (λ rows. IsStrappedTable rounding.now self.now rows.items) }
        ensures first_wrong_row { IfErr result (λ fault. IfSome (reported fault) (HaveRowFault rounding.now self.now)) }
        ensures tank { first_fault self.now ≡ None }
    {
        let count = self.row_count();
        let rises = rises(alloc, rounding, &self.deadwoods, count)?;
        let mut rows = Vec::new(alloc);
        rows.reserve(count)?;
        let mut climb = Climb::begin();
        let mut parts = 0;
        let mut before = 0;
        for i in 0..count {
            parts += rises[i];
            let row = self.row(rounding, &mut climb, parts, i as u64);
            if let Some(fault) = wrong_row(i, before, row) {
                return Err(fault);
            }
            rows.push(row as i64)?;
            before = row;
        }
        Ok(rows)
    }

    // How many rows there are.
    fn row_count(&self) -> usize
        ensures value { result ≡ row_count self.now }
        ensures most { 10 * result ≤ unsigned_abs MOST_HEIGHT + 10 }
        ensures tank { first_fault self.now ≡ None }
    {
        height(&self.courses) as usize / 10 + 1
    }

    // Row i: bottom and courses up to 10 i mm, less the deadwoods.
    #[tactic(auto, unfolding(crate::specs::Rows::strapped_row))]
    fn row(&self, rounding: &RoundTable, climb: &mut Climb, parts: i128, i: u64) -> i128
        requires height { 10 * i ≤ unsigned_abs MOST_HEIGHT }
        requires climb { IsClimb (bottom_height self.now.bottom) self.now.courses climb.old }
        requires not_above { climb.old.from ≤ 10 * i }
        requires parts { parts ≡ deadwood_parts rounding.now (10 * i) self.now.deadwoods }
        requires size { unsigned_abs parts ≤ 10 ^ 36 }
        ensures value { result ≡ strapped_row rounding.now self.now i }
        ensures climb { IsClimb (bottom_height self.now.bottom) self.now.courses climb.new }
        ensures not_above { climb.new.from ≤ 10 * i }
    {
        wide_difference(self.volume(rounding, climb, 10 * i), parts)
    }

    // The volume of bottom and courses up to a height, rounded.
    #[tactic(auto, unfolding(crate::specs::Courses::exact_volume))]
    fn volume(&self, rounding: &RoundTable, climb: &mut Climb, height: u64) -> i128
        requires height { height ≤ unsigned_abs MOST_HEIGHT }
        requires climb { IsClimb (bottom_height self.now.bottom) self.now.courses climb.old }
        requires not_above { climb.old.from ≤ height }
        ensures value { result ≡ rounded_litres rounding.now STRAPPED_ROW (exact_volume self.now height) }
        ensures size { unsigned_abs result ≤ 10 ^ 36 }
        ensures climb { IsClimb (bottom_height self.now.bottom) self.now.courses climb.new }
        ensures not_above { climb.new.from ≤ height }
    {
        let top = bottom_height(&self.bottom);
        if height <= top {
            return bottom_row(rounding, &self.bottom, height);
        }
        let below = product::<PER_LITRE, 1_000_000_000>(
            PER_LITRE as i64,
            whole_bottom(&self.bottom),
        );
        let above = climb.held_up_to(&self.courses, top, height) as i128;
        rounding.round(STRAPPED_ROW, sum(below, above), i128::from(PER_LITRE))
    }
}

// What is wrong with row i after the one before it.
fn wrong_row(i: usize, before: i128, row: i128) -> Option<StrapFault>
    ensures value { wrong_row i before row ≡ found result }
    ensures range { result ≡ None → IsVolume row }
{
    if row < 0 || row > i128::from(MOST_LITRES) {
        return Some(StrapFault::TooLarge(i));
    }
    if row < before {
        return Some(StrapFault::NotRising(i));
    }
    None
}
