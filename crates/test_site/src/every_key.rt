//! A site with every key, and what is read of it.

use crate::files::FILES;
use crate::folders::site_of;
use crate::gauges::{BARE, FULL};
use crate::parts::{Part, Parts, check_parts};
use farm_rounding::{Mode, RoundTable};
use std::test::Fail;
use test_checks::{Checks, shared};

// The rows of the site file's rounding table.
const ROUNDING: [(i64, Mode); 12] = [
    (1, Mode::HalfAway),
    (10, Mode::TowardZero),
    (1, Mode::HalfAway),
    (2, Mode::HalfAway),
    (1, Mode::HalfAway),
    (5, Mode::HalfAway),
    (1, Mode::TowardZero),
    (20, Mode::HalfAway),
    (50, Mode::HalfAway),
    (100, Mode::TowardZero),
    (1, Mode::HalfAway),
    (1, Mode::HalfAway),
];

// The rounding table has these rows.
fn check_rounding<R: Print>(
    checks: &mut Checks<'_, R>,
    rounding: &RoundTable,
    wanted: &[(i64, Mode); 12],
) {
    for n in 1..=12 {
        checks.same_at(n, rounding.row(n), wanted[n as usize - 1]);
    }
}

// Products and parties stand in rising order of number.
const NAMED: Parts = &[
    ("the name", Part::Name(b"Small site")),
    ("two products", Part::Products(2)),
    (
        "a factor file of one row",
        Part::Product(0, (11, b"Kerosene", 1)),
    ),
    ("one of nine rows", Part::Product(1, (12, b"Gas oil", 9))),
    ("a product by its number", Part::Numbered(11, Some(11))),
    ("a number of no product", Part::Numbered(13, None)),
    ("two parties", Part::Parties(2)),
    (
        "the party that stands last in the file",
        Part::Party(0, (7, b"Carrier")),
    ),
    ("the one that stands first", Part::Party(1, (8, b"Owner"))),
];

// Tanks rise too: the first has a table file and a roof, the second is strapped.
const TANKS: Parts = &[
    ("two tanks", Part::Tanks(2)),
    ("the tank with a table", Part::Tank(0, (21, 11, 20, 17))),
    (
        "an insulated shell",
        Part::Fixed(0, (true, 0, 1_500, 50_000)),
    ),
    ("a roof", Part::Roof(0, Some((10_000_000, 5, 50_000)))),
    ("three rows", Part::Rows(21, 3)),
    ("row 0 of three", Part::Litres(21, 0, 0)),
    ("row 1 of three", Part::Litres(21, 1, 1_000)),
    ("row 2 of three", Part::Litres(21, 2, 3_000)),
    (
        "the strapped tank",
        Part::Tank(1, (22, 12, -1_000_000_000, 1_000_000_000)),
    ),
    ("a bare shell", Part::Fixed(1, (false, 1_000, -550, 1_100))),
    ("no roof", Part::Roof(1, None)),
    ("101 rows", Part::Rows(22, 101)),
    ("row 0 of 101", Part::Litres(22, 0, 0)),
    ("row 1 of 101", Part::Litres(22, 1, 1_003)),
    ("row 2 of 101", Part::Litres(22, 2, 2_006)),
    ("row 20 of 101", Part::Litres(22, 20, 20_058)),
    ("row 45 of 101", Part::Litres(22, 45, 44_879)),
    ("row 70 of 101", Part::Litres(22, 70, 69_701)),
    ("row 100 of 101", Part::Litres(22, 100, 99_788)),
];

// Lines stand in the order of the file.
const LINES: Parts = &[
    ("two lines", Part::Lines(2)),
    ("a host by its address", Part::Line(0, (b"10.0.0.5", 502))),
    (
        "the gauge that says all that it may",
        Part::Gauges(0, &[FULL]),
    ),
    ("a host of two other bytes", Part::Line(1, (b"!~", 65_535))),
    (
        "the gauge that says only what it has to",
        Part::Gauges(1, &[BARE]),
    ),
];

#[test]
fn every_key_is_read(rt: HostRuntime) -> Result<(), Fail> {
    let mut checks = Checks::new(&rt);
    let site = shared(site_of(rt.alloc(), &FILES)?);
    check_rounding(&mut checks, &site.rounding, &ROUNDING);
    for parts in [NAMED, TANKS, LINES] {
        check_parts(&mut checks, &site, parts);
    }
    drop(site);
    Ok(checks.end()?)
}
