//! Rounding to a multiple with ties, and the rounding table.

use farm_rounding::{
    BadRow, DEADWOOD_PART, FACTOR_TIES, GROSS_OBSERVED, GROSS_STANDARD, LIQUID_TEMPERATURE, MASS,
    Mode, NET_STANDARD, ROOF_ADJUSTMENT, RoundTable, SHELL_CORRECTION, STRAPPED_ROW, TABLE_VOLUME,
    TAPE_MEAN, nearest,
};
use std::test::Fail;
use test_checks::{Checks, shared};

#[test]
fn nearest_ties(rt: HostRuntime) -> Result<(), Fail> {
    let mut checks = Checks::new(&rt);
    let cases = [
        ("a half, away from zero", (5, 10, 1), Mode::HalfAway, 1),
        (
            "a negative half, away from zero",
            (-5, 10, 1),
            Mode::HalfAway,
            -1,
        ),
        ("a half, toward zero", (5, 10, 1), Mode::TowardZero, 0),
        (
            "a negative half, toward zero",
            (-5, 10, 1),
            Mode::TowardZero,
            0,
        ),
        ("12.5 by steps of 5", (1250, 100, 5), Mode::HalfAway, 15),
    ];
    for (name, (num, den, step), mode, want) in cases {
        checks.same_at(name, nearest(num, den, step, mode), want);
    }
    Ok(checks.end()?)
}

// A quotient and a step, and what each mode makes of them: half away, toward zero, half even.
type Halves = &'static [(&'static str, (i64, i64, i64), [i128; 3])];

const HALVES: Halves = &[
    ("2.5", (25, 10, 1), [3, 2, 2]),
    ("3.5", (35, 10, 1), [4, 3, 4]),
    ("-2.5", (-25, 10, 1), [-3, -2, -2]),
    ("12.5 by steps of 5", (125, 10, 5), [15, 10, 10]),
    ("37.5 by steps of 5", (375, 10, 5), [40, 35, 40]),
    ("-1.5", (-15, 10, 1), [-2, -1, -2]),
    ("0.5", (5, 10, 1), [1, 0, 0]),
    ("2.6", (26, 10, 1), [3, 2, 3]),
    ("2.4", (24, 10, 1), [2, 2, 2]),
    ("1 by steps of 2", (1, 1, 2), [2, 0, 0]),
    ("3 by steps of 2", (3, 1, 2), [4, 2, 4]),
];

// What is wanted of a mode.
fn wanted(mode: Mode, [away, zero, even]: [i128; 3]) -> i128 {
    match mode {
        Mode::HalfAway => away,
        Mode::TowardZero => zero,
        Mode::HalfEven => even,
    }
}

// A quotient rounded to a step, if the divisor is above zero and the step 1, 2 or 5.
fn rounded((num, den, step): (i64, i64, i64), mode: Mode) -> Option<i128> {
    if den < 1 || !matches!(step, 1 | 2 | 5) {
        return None;
    }
    Some(nearest(i128::from(num), i128::from(den), step, mode))
}

// Each quotient is rounded as a mode is to do.
fn check_halves<R: Print>(checks: &mut Checks<'_, R>, mode: Mode) {
    for (name, quotient, wants) in HALVES {
        checks.same_at(name, rounded(*quotient, mode), Some(wanted(mode, *wants)));
    }
}

#[test]
fn half_even_ties(rt: HostRuntime) -> Result<(), Fail> {
    let mut checks = Checks::new(&rt);
    for mode in [Mode::HalfAway, Mode::TowardZero, Mode::HalfEven] {
        check_halves(&mut checks, mode);
    }
    Ok(checks.end()?)
}

#[test]
fn usual_table_rounds_temperatures_to_five(rt: HostRuntime) -> Result<(), Fail> {
    let mut checks = Checks::new(&rt);
    let table = shared(RoundTable::usual());
    checks.same(table.row(LIQUID_TEMPERATURE), (5, Mode::HalfAway));
    for n in [
        TAPE_MEAN,
        STRAPPED_ROW,
        DEADWOOD_PART,
        TABLE_VOLUME,
        SHELL_CORRECTION,
        FACTOR_TIES,
        ROOF_ADJUSTMENT,
        GROSS_OBSERVED,
        GROSS_STANDARD,
        NET_STANDARD,
        MASS,
    ] {
        checks.same_at(n, table.row(n), (1, Mode::HalfAway));
    }
    Ok(checks.end()?)
}

// The row of the mass in the table of these rows, or the first bad row.
fn mass_row(rows: [(u8, Mode); 12]) -> Result<(i64, Mode), BadRow> {
    Ok(RoundTable::new(rows)?.row(MASS))
}

// Rows with a step of 1, but for these.
fn rows_with(others: &[(usize, u8)]) -> [(u8, Mode); 12] {
    let mut rows = [(1, Mode::TowardZero); 12];
    for (index, step) in others {
        if let Some(row) = rows.get_mut(*index) {
            *row = (*step, Mode::HalfAway);
        }
    }
    rows
}

// Indices from 0 with their steps, and the row of the mass or the number of the first bad row.
const TABLES: &[(&str, &[(usize, u8)], Result<(i64, Mode), BadRow>)] = &[
    ("a good table", &[], Ok((1, Mode::TowardZero))),
    ("two odd steps", &[(0, 3), (9, 0)], Err(BadRow(1))),
    ("wide ties", &[(6, 5)], Err(BadRow(7))),
];

#[test]
fn a_table_is_refused_at_its_first_bad_row(rt: HostRuntime) -> Result<(), Fail> {
    let mut checks = Checks::new(&rt);
    for (name, others, want) in TABLES {
        checks.same_at(name, mass_row(rows_with(others)), shared(*want));
    }
    Ok(checks.end()?)
}
