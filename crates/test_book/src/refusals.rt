//! The rules on gauges, samples and dips.

ghost use Rattle.farm_history.specs.Commands.{IsWellFormedCommand};

use crate::book::{entry, row_book};
use crate::commands::{Given, Numbers, command_of};
use farm_book::Book;
use farm_history::{Command, Verdict};
use std::test::Fail;
use test_checks::Checks;

// The number and the value of the rule that refuses a command under a new key, 0 and 0 where it is accepted.
fn refusal(book: &Book<4>, cmd: Command) -> (u8, u32)
    requires { IsWellFormedCommand cmd }
{
    let entry = entry(99, cmd);
    let verdict = book.judge(&entry);
    drop(entry);
    match verdict {
        Verdict::Refused(rule) => (rule.number(), rule.value()),
        Verdict::Repeat(_) | Verdict::Accept => (0, 0),
    }
}

// Commands, and the number and the value of the rule that refuses each, 0 and 0 where it is accepted.
type Refusals = &'static [(&'static str, Given, (u8, u32))];

// Each command is refused as its row says.
fn check_refusals<R: Print>(checks: &mut Checks<'_, R>, book: &Book<4>, rows: Refusals) {
    for (name, given, want) in rows {
        checks.same_at(name, refusal(book, command_of(*given)), *want);
    }
}

const OF_READINGS: Refusals = &[
    (
        "an unknown tank",
        Given::Gauge(99, 5_000, 0, 2_000, 2_000),
        (3, 0),
    ),
    (
        "a level above its range",
        Given::Gauge(101, 50_001, 0, 2_000, 2_000),
        (5, 1),
    ),
    (
        "water below its range",
        Given::Gauge(101, 5_000, -1, 2_000, 2_000),
        (5, 2),
    ),
    (
        "a temperature above its range",
        Given::Gauge(101, 5_000, 0, 30_001, 2_000),
        (5, 3),
    ),
    (
        "an ambient temperature below its range",
        Given::Gauge(101, 5_000, 0, 2_000, -10_001),
        (5, 4),
    ),
    (
        "a level above the table, and more water",
        Given::Gauge(101, 15_001, 15_002, 2_000, 2_000),
        (7, 0),
    ),
    (
        "more water than liquid",
        Given::Gauge(101, 10, 11, 2_000, 2_000),
        (8, 0),
    ),
    (
        "water alone, up to the last row",
        Given::Gauge(101, 15_000, 15_000, 2_000, 2_000),
        (0, 0),
    ),
    ("a density below its range", Given::Sample(3_999, 0), (5, 1)),
    (
        "sediment and water above their range",
        Given::Sample(8_500, 100_001),
        (5, 2),
    ),
    (
        "nothing but sediment and water",
        Given::Sample(8_500, 100_000),
        (0, 0),
    ),
];

#[test]
fn gauges_and_samples_are_refused_by_their_first_rule(rt: HostRuntime) -> Result<(), Fail> {
    let mut checks = Checks::new(&rt);
    let book = row_book(rt.alloc())?;
    check_refusals(&mut checks, &book, OF_READINGS);
    drop(book);
    Ok(checks.end()?)
}

const NOTHING: Numbers = Numbers::Nothing;

const WARM: Numbers = Numbers::One(2_000);

const LEVEL: Numbers = Numbers::Two(5_000, 5_000);

const OF_DIPS: Refusals = &[
    (
        "an outage below the datum",
        Given::Dip(true, Numbers::Two(16_001, 16_001), NOTHING, WARM),
        (6, 3),
    ),
    (
        "one tape",
        Given::Dip(false, Numbers::One(5_000), NOTHING, WARM),
        (6, 1),
    ),
    (
        "tapes that differ by 4 mm",
        Given::Dip(false, Numbers::Two(5_000, 5_004), NOTHING, WARM),
        (6, 2),
    ),
    (
        "one tape of the water",
        Given::Dip(false, LEVEL, Numbers::One(1), WARM),
        (6, 4),
    ),
    (
        "two that differ",
        Given::Dip(false, LEVEL, Numbers::Two(1, 2), WARM),
        (6, 5),
    ),
    (
        "more water than liquid",
        Given::Dip(false, LEVEL, Numbers::Two(5_001, 5_001), WARM),
        (8, 0),
    ),
    (
        "a level above the table",
        Given::Dip(true, Numbers::Two(999, 999), NOTHING, WARM),
        (7, 0),
    ),
    (
        "a level in the last row",
        Given::Dip(true, Numbers::Two(1_000, 1_000), NOTHING, WARM),
        (0, 0),
    ),
    (
        "no temperatures",
        Given::Dip(false, LEVEL, NOTHING, NOTHING),
        (5, 3),
    ),
];

#[test]
fn dips_are_refused_by_their_first_rule(rt: HostRuntime) -> Result<(), Fail> {
    let mut checks = Checks::new(&rt);
    let book = row_book(rt.alloc())?;
    check_refusals(&mut checks, &book, OF_DIPS);
    drop(book);
    Ok(checks.end()?)
}
