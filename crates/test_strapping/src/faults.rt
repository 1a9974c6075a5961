//! The first fault of a strapping or of its rows.

use crate::tanks::{Figures, rows_of, tank_of};
use farm_rounding::RoundTable;
use std::alloc::Global;
use std::test::Fail;
use strap_courses::StrapFault;
use test_checks::{Checks, shared};

// Why a tank of one course, with a heel at 0 mm and a deadwood that takes these litres, has no rows, if it has none.
fn rows_fault(alloc: Global, heel: i64, taken: i64) -> Result<Option<StrapFault>, Fail> {
    let usual = RoundTable::usual();
    Ok(rows_of(alloc, 0, &[(200, 700, taken)], &[(0, heel)], &usual)?.err())
}

// The course holds 100.2875 litres to the mm, of which the deadwood takes a five-hundredth of its litres.
#[test]
fn rows_are_refused_at_the_first_wrong_one(rt: HostRuntime) -> Result<(), Fail> {
    let mut checks = Checks::new(&rt);
    let cases = [
        (0, 50_000, None),
        (500_000, 600_000, Some(StrapFault::NotRising(21))),
        (0, 600_000_000, Some(StrapFault::TooLarge(21))),
        (1_000_000_000, 0, Some(StrapFault::TooLarge(1))),
    ];
    for (heel, taken, want) in cases {
        checks.same_at(taken, rows_fault(rt.alloc(), heel, taken)?, want);
    }
    Ok(checks.end()?)
}

// The first fault of a tank of the figures of its parts, if it has one.
fn fault_of(
    alloc: Global,
    courses: &[Figures],
    deadwoods: &[(i64, i64, i64)],
    bottom: &[(i64, i64)],
) -> Result<Option<StrapFault>, Fail> {
    Ok(tank_of(alloc, courses, deadwoods, bottom)?.err())
}

// The fault of two courses of these heights, a deadwood, and a single point of the bottom, at this height.
fn parts_fault(
    alloc: Global,
    [first, second]: [i64; 2],
    deadwood: (i64, i64, i64),
    start: i64,
) -> Result<Option<StrapFault>, Fail> {
    let courses = [[first, 10, 10, 0, 0, 0, 0], [second, 10, 10, 0, 0, 0, 0]];
    fault_of(alloc, &courses, &[deadwood], &[(start, 0)])
}

// Courses with neither a deadwood nor a point of the bottom.
const MISSING: &[(&str, &[Figures], Option<StrapFault>)] = &[
    ("no course", &[], Some(StrapFault::NoCourse)),
    (
        "no point",
        &[[500, 10, 10, 0, 0, 0, 0]],
        Some(StrapFault::BadBottom(1)),
    ),
];

// The heights of two courses, where the deadwood ends that begins at 300 mm, and where the bottom begins.
const ORDERED: &[(&str, [i64; 2], i64, i64, Option<StrapFault>)] = &[
    (
        "a course first",
        [3, 0],
        300,
        1,
        Some(StrapFault::BadCourse(2)),
    ),
    (
        "then a deadwood",
        [3, 4],
        300,
        1,
        Some(StrapFault::BadDeadwood(1)),
    ),
    (
        "then the bottom",
        [3, 4],
        301,
        1,
        Some(StrapFault::BadBottom(1)),
    ),
    ("then the height", [3, 4], 301, 0, Some(StrapFault::TooTall)),
    ("no fault", [3, 7], 301, 0, None),
];

#[test]
fn faults_are_reported_in_their_order(rt: HostRuntime) -> Result<(), Fail> {
    let mut checks = Checks::new(&rt);
    for (name, courses, want) in MISSING {
        let fault = fault_of(rt.alloc(), courses, &[], &[])?;
        checks.same_at(name, shared(fault), *want);
    }
    for (name, heights, high, start, want) in ORDERED {
        let fault = parts_fault(rt.alloc(), *heights, (300, *high, 1), *start)?;
        checks.same_at(name, fault, *want);
    }
    Ok(checks.end()?)
}

#[test]
fn values_next_to_the_limits_of_a_strapped_tank(rt: HostRuntime) -> Result<(), Fail> {
    let mut checks = Checks::new(&rt);
    let cases = [
        ("below 10 mm", [4, 5], 1, Some(StrapFault::TooTall)),
        ("10 mm", [5, 5], 1, None),
        ("50,000 mm", [25_000, 25_000], 1, None),
        (
            "above 50,000 mm",
            [25_000, 25_001],
            1,
            Some(StrapFault::TooTall),
        ),
        ("the largest deadwood", [500, 500], 1_000_000_000, None),
        (
            "a larger deadwood",
            [500, 500],
            1_000_000_001,
            Some(StrapFault::BadDeadwood(1)),
        ),
    ];
    for (name, heights, litres, want) in cases {
        let fault = parts_fault(rt.alloc(), heights, (0, 1, litres), 0)?;
        checks.same_at(name, fault, want);
    }
    Ok(checks.end()?)
}

const FAULT_TEXTS: &[(StrapFault, &str)] = &[
    (
        StrapFault::BadCourse(2),
        "course 2 has no height or no inside",
    ),
    (
        StrapFault::TooLarge(7),
        "row 7 is outside 0 to 1000000000 litres",
    ),
];

// The text of a fault.
fn check_text<R: Print>(
    checks: &mut Checks<'_, R>,
    alloc: Global,
    fault: StrapFault,
    want: &str,
) -> Result<(), Fail> {
    let text = format!(in alloc; "{}", fault)?;
    checks.same_at(want, text.as_str(), want);
    drop(text);
    Ok(())
}

#[test]
fn a_fault_has_its_number_in_its_text(rt: HostRuntime) -> Result<(), Fail> {
    let mut checks = Checks::new(&rt);
    for (fault, want) in FAULT_TEXTS {
        check_text(&mut checks, rt.alloc(), *fault, want)?;
    }
    Ok(checks.end()?)
}
