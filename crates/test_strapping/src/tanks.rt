//! Strapped tanks and their rows.

use farm_fixed::{Deci, Mm, OutOfRange};
use farm_rounding::{BadRow, DEADWOOD_PART, Mode, RoundTable, STRAPPED_ROW};
use std::alloc::Global;
use std::test::Fail;
use strap_courses::{Course, Deadwood, StrapFault, Strapping};
use test_checks::{Checks, shared};

/// Height, both circumferences, both deductions, plate and paint: the last six in 0.1 mm.
pub type Figures = [i64; 7];

// A course of its figures.
fn course(figures: Figures) -> Result<Course, OutOfRange> {
    let [height, lower, upper, lower_off, upper_off, plate, paint] = figures;
    Ok(Course {
        height: Mm::new(height)?,
        lower: Deci::new(lower)?,
        upper: Deci::new(upper)?,
        lower_off: Deci::new(lower_off)?,
        upper_off: Deci::new(upper_off)?,
        plate: Deci::new(plate)?,
        paint: Deci::new(paint)?,
    })
}

// From a height to another, with the litres that it takes.
fn deadwood((low, high, litres): (i64, i64, i64)) -> Result<Deadwood, OutOfRange> {
    Ok(Deadwood {
        low: Mm::new(low)?,
        high: Mm::new(high)?,
        litres,
    })
}

// Appends courses of their figures to a list.
fn add_courses(courses: &mut Vec<Course>, figures: &[Figures]) -> Result<(), Fail> {
    for one in figures {
        courses.push(course(*one)?)?;
    }
    Ok(())
}

// Courses of their figures.
fn courses_of(alloc: Global, figures: &[Figures]) -> Result<Vec<Course>, Fail> {
    let mut courses = Vec::new(alloc);
    if let Err(fail) = add_courses(&mut courses, figures) {
        drop(courses);
        return Err(fail);
    }
    Ok(courses)
}

// Appends deadwoods of their figures to a list.
fn add_deadwoods(deadwoods: &mut Vec<Deadwood>, figures: &[(i64, i64, i64)]) -> Result<(), Fail> {
    for one in figures {
        deadwoods.push(shared(deadwood(*one)?))?;
    }
    Ok(())
}

// Deadwoods of their figures.
fn deadwoods_of(alloc: Global, figures: &[(i64, i64, i64)]) -> Result<Vec<Deadwood>, Fail> {
    let mut deadwoods = Vec::new(alloc);
    if let Err(fail) = add_deadwoods(&mut deadwoods, figures) {
        drop(deadwoods);
        return Err(fail);
    }
    Ok(deadwoods)
}

// Appends points of a bottom to a list.
fn add_points(bottom: &mut Vec<(Mm, i64)>, points: &[(i64, i64)]) -> Result<(), Fail> {
    for (height, litres) in points {
        bottom.push((Mm::new(*height)?, *litres))?;
    }
    Ok(())
}

// Points of a bottom: the litres at heights.
fn bottom_of(alloc: Global, points: &[(i64, i64)]) -> Result<Vec<(Mm, i64)>, Fail> {
    let mut bottom = Vec::new(alloc);
    if let Err(fail) = add_points(&mut bottom, points) {
        drop(bottom);
        return Err(fail);
    }
    Ok(bottom)
}

// Courses and deadwoods of their figures.
fn wall_of(
    alloc: Global,
    courses: &[Figures],
    deadwoods: &[(i64, i64, i64)],
) -> Result<(Vec<Course>, Vec<Deadwood>), Fail> {
    let courses = courses_of(alloc, courses)?;
    match deadwoods_of(alloc, deadwoods) {
        Ok(deadwoods) => Ok((courses, deadwoods)),
        Err(fail) => {
            drop(courses);
            Err(fail)
        }
    }
}

/// A flat bottom.
pub(crate) const FLAT: &[(i64, i64)] = &[(0, 0)];

/// A strapped tank of the figures of its parts.
pub(crate) fn tank_of(
    alloc: Global,
    courses: &[Figures],
    deadwoods: &[(i64, i64, i64)],
    bottom: &[(i64, i64)],
) -> Result<Result<Strapping, StrapFault>, Fail> {
    let (courses, deadwoods) = wall_of(alloc, courses, deadwoods)?;
    match bottom_of(alloc, bottom) {
        Ok(bottom) => Ok(Strapping::new(courses, deadwoods, bottom)),
        Err(fail) => {
            drop((courses, deadwoods));
            Err(fail)
        }
    }
}

/// The rows of a tank of one course with this plate.
pub(crate) fn rows_of(
    alloc: Global,
    plate: i64,
    deadwoods: &[(i64, i64, i64)],
    bottom: &[(i64, i64)],
    rounding: &RoundTable,
) -> Result<Result<Vec<i64>, StrapFault>, Fail> {
    let course = [1_000, 355_000, 355_000, 0, 0, plate, 0];
    let tank = shared(tank_of(alloc, &[course], deadwoods, bottom)??);
    let rows = tank.rows(alloc, rounding);
    drop(tank);
    Ok(rows)
}

/// Rows of a table: the index and the litres of each.
pub type Rows = &'static [(&'static str, usize, i64)];

/// The rows of a table are these.
pub(crate) fn check_rows<R: Print>(checks: &mut Checks<'_, R>, rows: &[i64], wants: Rows) {
    for (name, index, want) in wants {
        checks.same_at(name, rows.get(*index).copied(), Some(*want));
    }
}

const ONE_COURSE: Rows = &[
    ("the first row", 0, 0),
    ("10 mm", 1, 1_003),
    ("20 mm", 2, 2_006),
    ("the last row", 100, 100_288),
];

#[test]
fn one_course_rows(rt: HostRuntime) -> Result<(), Fail> {
    let mut checks = Checks::new(&rt);
    let rows = rows_of(rt.alloc(), 0, &[], FLAT, &RoundTable::usual())??;
    checks.same_at("how many rows", rows.len(), 101);
    check_rows(&mut checks, &rows, ONE_COURSE);
    drop(rows);
    Ok(checks.end()?)
}

// What a deadwood from 200 to 700 mm takes, and rows of a tank with it.
const DEADWOODS: &[(i64, Rows)] = &[
    (
        500,
        &[
            ("below one that takes", 1, 999),
            ("where it begins", 20, 19_977),
            ("half of it", 45, 44_699),
            ("where it ends", 70, 69_421),
        ],
    ),
    (
        -500,
        &[
            ("below one that adds", 1, 999),
            ("where that begins", 20, 19_977),
            ("half of that", 45, 45_199),
            ("where that ends", 70, 70_421),
        ],
    ),
];

// Rows of a tank with a plate of 11.3 mm and a deadwood that takes these litres.
fn check_deadwood<R: Print>(
    checks: &mut Checks<'_, R>,
    alloc: Global,
    taken: i64,
    wants: Rows,
) -> Result<(), Fail> {
    let usual = RoundTable::usual();
    let rows = rows_of(alloc, 113, &[(200, 700, taken)], FLAT, &usual)??;
    check_rows(checks, &rows, wants);
    drop(rows);
    Ok(())
}

#[test]
fn plate_and_deadwood_rows(rt: HostRuntime) -> Result<(), Fail> {
    let mut checks = Checks::new(&rt);
    for (taken, wants) in DEADWOODS {
        check_deadwood(&mut checks, rt.alloc(), *taken, wants)?;
    }
    Ok(checks.end()?)
}

const CONE: &[(i64, i64)] = &[(0, 0), (100, 500), (200, 2_000)];

// Row 15 lies halfway between 500 and 2,000 litres; row 21 is 10 mm of the course above 2,000.
const OF_A_CONE: Rows = &[
    ("the first point", 0, 0),
    ("half of the first step", 5, 250),
    ("the second point", 10, 500),
    ("half of the second step", 15, 1_250),
    ("the last point", 20, 2_000),
    ("above the cone", 21, 3_003),
];

#[test]
fn a_conical_bottom_is_interpolated(rt: HostRuntime) -> Result<(), Fail> {
    let mut checks = Checks::new(&rt);
    let rows = rows_of(rt.alloc(), 0, &[], CONE, &RoundTable::usual())??;
    check_rows(&mut checks, &rows, OF_A_CONE);
    drop(rows);
    Ok(checks.end()?)
}

// A row toward zero to 10, and a deadwood to 2.
fn coarse() -> Result<RoundTable, BadRow> {
    let mut steps = [(1, Mode::HalfAway); 12];
    steps[usize::from(STRAPPED_ROW) - 1] = (10, Mode::TowardZero);
    steps[usize::from(DEADWOOD_PART) - 1] = (2, Mode::HalfAway);
    RoundTable::new(steps)
}

const BY_ONE: Rows = &[("by the litre", 1, 1_003 - 3 - 3)];

const COARSELY: Rows = &[("coarsely", 1, 1_000 - 4 - 4)];

// Rows of a tank with two deadwoods.
fn check_rounded<R: Print>(
    checks: &mut Checks<'_, R>,
    alloc: Global,
    rounding: &RoundTable,
    wants: Rows,
) -> Result<(), Fail> {
    let deadwoods = [(0, 1_000, 333), (0, 1_000, 333)];
    let rows = rows_of(alloc, 0, &deadwoods, FLAT, rounding)??;
    check_rows(checks, &rows, wants);
    drop(rows);
    Ok(())
}

// 10 mm of the course hold 1,002.875 litres, and 10 mm of each deadwood are 3.33.
#[test]
fn each_deadwood_is_rounded_by_itself(rt: HostRuntime) -> Result<(), Fail> {
    let mut checks = Checks::new(&rt);
    check_rounded(&mut checks, rt.alloc(), &RoundTable::usual(), BY_ONE)?;
    check_rounded(&mut checks, rt.alloc(), &coarse()?, COARSELY)?;
    Ok(checks.end()?)
}
