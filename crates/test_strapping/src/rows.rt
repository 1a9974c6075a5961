//! Rows of strapped tanks of several courses and deadwoods.

use crate::tanks::{FLAT, Figures, Rows, check_rows, tank_of};
use farm_rounding::{BadRow, DEADWOOD_PART, Mode, RoundTable, STRAPPED_ROW};
use std::alloc::Global;
use std::test::Fail;
use strap_courses::StrapFault;
use test_checks::{Checks, shared};

// Where a deadwood begins and ends, and the litres that it takes.
type Taken = (i64, i64, i64);

// The rows of a tank of these parts with a flat bottom.
fn rows_of(
    alloc: Global,
    courses: &[Figures],
    deadwoods: &[Taken],
    rounding: &RoundTable,
) -> Result<Result<Vec<i64>, StrapFault>, Fail> {
    let tank = shared(tank_of(alloc, courses, deadwoods, FLAT)??);
    let rows = tank.rows(alloc, rounding);
    drop(tank);
    Ok(rows)
}

// Courses of 100.2875 and 64.184 litres to the mm, the first of which ends between two rows.
const TWO_COURSES: &[Figures] = &[
    [25, 355_000, 355_000, 0, 0, 0, 0],
    [30, 284_000, 284_000, 0, 0, 0, 0],
];

// Three that overlap, one that adds among them and one that reaches the top, and one between two rows.
const OVERLAPPING: &[Taken] = &[(5, 35, 90), (12, 44, -40), (33, 34, 7), (25, 55, 61)];

// At 10 to 50 mm the courses hold 1,002.875, 2,005.75, 25 x 100.2875 + 5 x 64.184 = 2,828.1075, 3,469.9475 and 4,111.7875
// litres. The first deadwood takes 15, 45, 75, 90 and 90 of them, the second 0, -10, -22.5, -35 and -40, the third 0, 0, 0,
// 7 and 7, the last 0, 0, 61 x 5 / 30 = 10.17, 30.5 and 50.83.
const BY_THE_LITRE: Rows = &[
    ("by the litre at 0 mm", 0, 0),
    ("by the litre at 10 mm", 1, 1_003 - 15),
    ("by the litre at 20 mm", 2, 2_006 - 45 + 10),
    ("by the litre at 30 mm", 3, 2_828 - 75 + 23 - 10),
    ("by the litre at 40 mm", 4, 3_470 - 90 + 35 - 7 - 31),
    ("by the litre at 50 mm", 5, 4_112 - 90 + 40 - 7 - 51),
];

// Rows toward zero to 10, and parts to 2.
const TO_TWO: Rows = &[
    ("parts to 2 at 10 mm", 1, 1_000 - 16),
    ("parts to 2 at 20 mm", 2, 2_000 - 46 + 10),
    ("parts to 2 at 30 mm", 3, 2_820 - 76 + 22 - 10),
    ("parts to 2 at 40 mm", 4, 3_460 - 90 + 36 - 8 - 30),
    ("parts to 2 at 50 mm", 5, 4_110 - 90 + 40 - 8 - 50),
];

// Rows to 1, and parts toward zero to 5.
const TO_FIVE: Rows = &[
    ("parts to 5 at 10 mm", 1, 1_003 - 15),
    ("parts to 5 at 20 mm", 2, 2_006 - 45 + 10),
    ("parts to 5 at 30 mm", 3, 2_828 - 75 + 20 - 10),
    ("parts to 5 at 40 mm", 4, 3_470 - 90 + 35 - 5 - 30),
    ("parts to 5 at 50 mm", 5, 4_112 - 90 + 40 - 5 - 50),
];

// A table that rounds rows and parts by these steps and modes.
fn rounding_by(row: (u8, Mode), part: (u8, Mode)) -> Result<RoundTable, BadRow> {
    let mut steps = [(1, Mode::HalfAway); 12];
    steps[usize::from(STRAPPED_ROW) - 1] = row;
    steps[usize::from(DEADWOOD_PART) - 1] = part;
    RoundTable::new(steps)
}

// Rows of the tank with overlapping deadwoods.
fn check_overlapping<R: Print>(
    checks: &mut Checks<'_, R>,
    alloc: Global,
    rounding: &RoundTable,
    wants: Rows,
) -> Result<(), Fail> {
    let rows = rows_of(alloc, TWO_COURSES, OVERLAPPING, rounding)??;
    checks.same_at("how many rows", rows.len(), 6);
    check_rows(checks, &rows, wants);
    drop(rows);
    Ok(())
}

#[test]
fn overlapping_deadwoods_over_two_courses(rt: HostRuntime) -> Result<(), Fail> {
    let mut checks = Checks::new(&rt);
    let to_two = rounding_by((10, Mode::TowardZero), (2, Mode::HalfAway))?;
    let to_five = rounding_by((1, Mode::HalfAway), (5, Mode::TowardZero))?;
    check_overlapping(&mut checks, rt.alloc(), &RoundTable::usual(), BY_THE_LITRE)?;
    check_overlapping(&mut checks, rt.alloc(), &to_two, TO_TWO)?;
    check_overlapping(&mut checks, rt.alloc(), &to_five, TO_FIVE)?;
    Ok(checks.end()?)
}

// The whole number nearest to a quotient, halves away from zero.
fn nearest(number: i128, by: i128) -> i128 {
    let twice = number.wrapping_abs().wrapping_mul(2).wrapping_add(by);
    let size = twice.checked_div(by.wrapping_mul(2)).unwrap_or(0);
    if number < 0 {
        size.wrapping_neg()
    } else {
        size
    }
}

// What courses hold up to a height, to the litre, each summed.
fn held(courses: &[Figures], mm: i128) -> i128 {
    let mut held: i128 = 0;
    let mut from: i128 = 0;
    for [height, lower, upper, lower_off, upper_off, plate, paint] in courses {
        let around = lower
            .wrapping_sub(*lower_off)
            .wrapping_add(upper.wrapping_sub(*upper_off));
        let thick = plate.wrapping_add(*paint);
        let scaled = i128::from(
            around
                .wrapping_mul(113)
                .wrapping_sub(thick.wrapping_mul(1_420)),
        );
        let below = mm.wrapping_sub(from).min(i128::from(*height)).max(0);
        held = held.wrapping_add(scaled.wrapping_mul(scaled).wrapping_mul(below));
        from = from.wrapping_add(i128::from(*height));
    }
    nearest(held, 64_184_000_000_000)
}

// What deadwoods take up to a height, to the litre, each summed.
fn taken(deadwoods: &[Taken], mm: i128) -> i128 {
    let mut taken: i128 = 0;
    for (low, high, litres) in deadwoods {
        let (low, high, litres) = (i128::from(*low), i128::from(*high), i128::from(*litres));
        let above = mm.min(high).wrapping_sub(low).max(0);
        taken = taken.wrapping_add(nearest(litres.wrapping_mul(above), high.wrapping_sub(low)));
    }
    taken
}

// Three courses that end between rows, of circumferences that differ.
const THREE_COURSES: &[Figures] = &[
    [337, 355_000, 354_900, 12, 3, 113, 2],
    [334, 350_000, 349_950, 10, 0, 98, 2],
    [331, 284_000, 284_000, 0, 0, 0, 0],
];

// From end to end, between rows, from row to row, within a bottom row, above the top row and above the top.
const MANY: &[Taken] = &[
    (0, 1_002, 900),
    (101, 899, -333),
    (250, 251, 7),
    (249, 260, 11),
    (250, 260, 6),
    (330, 345, -5),
    (0, 9, 3),
    (500, 510, -1),
    (995, 1_002, 40),
    (990, 3_000, 2_010),
    (2_000, 3_000, 77),
];

const STRAPPINGS: &[(&[Figures], &[Taken])] = &[
    (TWO_COURSES, OVERLAPPING),
    (THREE_COURSES, MANY),
    (THREE_COURSES, &[]),
];

// Each row of a tank is what its courses hold less what its deadwoods take.
fn check_sums<R: Print>(
    checks: &mut Checks<'_, R>,
    alloc: Global,
    courses: &[Figures],
    deadwoods: &[Taken],
) -> Result<(), Fail> {
    let rows = rows_of(alloc, courses, deadwoods, &RoundTable::usual())??;
    for (i, row) in rows.iter().enumerate() {
        let mm = 10 * i as i128;
        let sum = held(courses, mm).wrapping_sub(taken(deadwoods, mm));
        checks.same_at(i, i128::from(*row), sum);
    }
    drop(rows);
    Ok(())
}

#[test]
fn each_row_is_the_sum_over_all_parts(rt: HostRuntime) -> Result<(), Fail> {
    let mut checks = Checks::new(&rt);
    for (courses, deadwoods) in STRAPPINGS {
        check_sums(&mut checks, rt.alloc(), courses, deadwoods)?;
    }
    Ok(checks.end()?)
}
