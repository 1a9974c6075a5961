//! The reading of tapes, the innage of an outage, and means.

ghost use Rattle.std.specs.Prelude.{◌≡◌, IfSome, Ok, ◌+ℤ◌};
ghost use Rattle.farm_readings.specs.Readings.{tape_reading};

use farm_fixed::{Centi, Mm, OutOfRange};
use farm_readings::{BelowDatum, TapeFault, innage, mean_temp, tape};
use farm_rounding::{BadRow, Mode, RoundTable};
use std::alloc::Global;
use std::test::Fail;
use test_checks::{Checks, shared};

// The reading of tapes of these heights, which are put in a list.
fn reading_in(
    tapes: &mut Vec<Mm>,
    heights: &[i64],
    rounding: &RoundTable,
) -> Result<Result<Mm, TapeFault>, Fail> {
    for height in heights {
        tapes.push(Mm::new(*height)?)?;
    }
    Ok(tape(tapes, rounding))
}

// The reading of tapes of these heights.
fn reading(
    alloc: Global,
    heights: &[i64],
    rounding: &RoundTable,
) -> Result<Result<Mm, TapeFault>, Fail> {
    let mut tapes = Vec::new(alloc);
    let reading = reading_in(&mut tapes, heights, rounding);
    drop(tapes);
    reading
}

#[test]
fn equal_or_close_tapes_have_a_reading(rt: HostRuntime) -> Result<(), Fail> {
    let mut checks = Checks::new(&rt);
    let cases = [
        ("two equal", &[12_345, 12_345][..], Ok(12_345)),
        (
            "three within 3 mm",
            &[12_344, 12_346, 12_347][..],
            Ok(12_346),
        ),
        (
            "three 4 mm apart",
            &[12_344, 12_346, 12_348][..],
            Err(TapeFault::Spread),
        ),
        (
            "two that differ",
            &[12_344, 12_345][..],
            Err(TapeFault::Spread),
        ),
        ("one", &[12_345][..], Err(TapeFault::Count)),
        ("no tape", &[][..], Err(TapeFault::Count)),
        (
            "four",
            &[12_345, 12_345, 12_345, 12_345][..],
            Err(TapeFault::Count),
        ),
    ];
    let usual = RoundTable::usual();
    for (name, heights, want) in cases {
        let reading = shared(reading(rt.alloc(), heights, &usual)?);
        checks.same_at(name, reading.map(Mm::get), want);
    }
    Ok(checks.end()?)
}

// The outage that tapes read and the innage that it stands for, where there are such.
fn gauged(reference: Mm, tapes: &[Mm], rounding: &RoundTable) -> Option<(Mm, Mm)>
    ensures { IfSome result (λ gauge. (tape_reading rounding.now tapes.now ≡ Ok gauge.0) × (gauge.1 +ℤ gauge.0 ≡ reference)) }
{
    let outage = tape(tapes, rounding).ok()?;
    let innage = innage(reference, outage).ok()?;
    Some((outage, innage))
}

#[test]
fn an_outage_is_taken_from_the_reference_height(rt: HostRuntime) -> Result<(), Fail> {
    let mut checks = Checks::new(&rt);
    let height = Mm::new(15_000)?;
    let cases = [
        (2_655, Ok(12_345)),
        (15_000, Ok(0)),
        (15_001, Err(BelowDatum)),
    ];
    for (outage, want) in cases {
        let innage = shared(innage(height, Mm::new(outage)?));
        checks.same_at(outage, innage.map(Mm::get), want);
    }
    Ok(checks.end()?)
}

#[test]
fn two_tapes_of_an_outage_give_an_innage(rt: HostRuntime) -> Result<(), Fail> {
    let mut checks = Checks::new(&rt);
    let [reference, outage, innage] = [Mm::new(15_000)?, Mm::new(2_655)?, Mm::new(12_345)?];
    let gauge = gauged(reference, &[outage, outage], &RoundTable::usual());
    checks.same(gauge, Some((outage, innage)));
    Ok(checks.end()?)
}

// What has a mean: two or three temperatures in 0.01 C, or three tapes in mm.
#[derive(Clone, Copy)]
enum Measured {
    Pair([i64; 2]),
    Temperatures([i64; 3]),
    Tapes([i64; 3]),
}

// Means, each in its units.
type Means = &'static [(&'static str, Measured, i64)];

// The mean of three temperatures.
fn mean_of([first, second, third]: [i64; 3], rounding: &RoundTable) -> Result<i64, OutOfRange> {
    let list = [Centi::new(first)?, Centi::new(second)?, Centi::new(third)?];
    Ok(mean_temp(&list, rounding).get())
}

// The mean of two temperatures.
fn mean_of_two([first, second]: [i64; 2], rounding: &RoundTable) -> Result<i64, OutOfRange> {
    let list = [Centi::new(first)?, Centi::new(second)?];
    Ok(mean_temp(&list, rounding).get())
}

// The mean of two or three is that of its row.
fn check_mean<R: Print>(
    checks: &mut Checks<'_, R>,
    alloc: Global,
    rounding: &RoundTable,
    (name, measured, want): (&str, Measured, i64),
) -> Result<(), Fail> {
    match measured {
        Measured::Pair(units) => checks.same_at(name, mean_of_two(units, rounding), Ok(want)),
        Measured::Temperatures(units) => checks.same_at(name, mean_of(units, rounding), Ok(want)),
        Measured::Tapes(heights) => {
            let reading = reading(alloc, &heights, rounding)?;
            checks.same_at(name, reading.map(Mm::get), Ok(want));
        }
    }
    Ok(())
}

// Means are those of their rows.
fn check_means<R: Print>(
    checks: &mut Checks<'_, R>,
    alloc: Global,
    rounding: &RoundTable,
    means: Means,
) -> Result<(), Fail> {
    for mean in means {
        check_mean(checks, alloc, rounding, *mean)?;
    }
    Ok(())
}

// Rows whose means are rounded toward zero to 100.
fn coarse() -> Result<RoundTable, BadRow> {
    let mut rows = [(1, Mode::HalfAway); 12];
    rows[0] = (100, Mode::TowardZero);
    rows[1] = (100, Mode::TowardZero);
    RoundTable::new(rows)
}

// Rows whose means are rounded by a mode: tapes to 2 mm, and temperatures to 0.05 C.
fn halves_by(mode: Mode) -> Result<RoundTable, BadRow> {
    let mut rows = [(1, Mode::HalfAway); 12];
    rows[0] = (2, mode);
    rows[1] = (5, mode);
    RoundTable::new(rows)
}

// By hand: 2,503.33 is 2,505 to a step of 5 and 2,500 below it to 100, and 12,345.33 is 12,300 below it to 100.
const USUAL_MEANS: Means = &[(
    "temperatures to a step of 5",
    Measured::Temperatures([2_500, 2_500, 2_510]),
    2_505,
)];

const COARSE_MEANS: Means = &[
    (
        "temperatures below to 100",
        Measured::Temperatures([2_500, 2_500, 2_510]),
        2_500,
    ),
    (
        "tapes below to 100",
        Measured::Tapes([12_344, 12_346, 12_346]),
        12_300,
    ),
];

// By hand: 2,502.5 lies between 500 and 501 steps of 5, and 1 between none and one step of 2.
const HALVES_AWAY: Means = &[
    (
        "two temperatures halfway, away from zero",
        Measured::Pair([2_500, 2_505]),
        2_505,
    ),
    (
        "tapes halfway, away from zero",
        Measured::Tapes([1, 1, 1]),
        2,
    ),
];

const HALVES_EVEN: Means = &[
    (
        "two temperatures halfway, to the even step",
        Measured::Pair([2_500, 2_505]),
        2_500,
    ),
    (
        "tapes halfway, to the even step",
        Measured::Tapes([1, 1, 1]),
        0,
    ),
];

#[test]
fn a_mean_halfway_goes_by_the_mode(rt: HostRuntime) -> Result<(), Fail> {
    let mut checks = Checks::new(&rt);
    for (mode, means) in [(Mode::HalfAway, HALVES_AWAY), (Mode::HalfEven, HALVES_EVEN)] {
        check_means(&mut checks, rt.alloc(), &halves_by(mode)?, means)?;
    }
    Ok(checks.end()?)
}

#[test]
fn a_mean_is_rounded_by_its_row(rt: HostRuntime) -> Result<(), Fail> {
    let mut checks = Checks::new(&rt);
    let alloc = rt.alloc();
    check_means(&mut checks, alloc, &RoundTable::usual(), USUAL_MEANS)?;
    check_means(&mut checks, alloc, &coarse()?, COARSE_MEANS)?;
    Ok(checks.end()?)
}
