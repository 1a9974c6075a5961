//! Days as they are written, and the reports of days on which a receipt was closed or nothing was.

ghost use Rattle.std.specs.Prelude.{◌≡◌};
ghost use Rattle.calendar_days.specs.Calendar.{IsFirstSecond};
ghost use Rattle.farm_history.specs.Commands.{IsWellFormedCommand};
ghost use Rattle.farm_history.specs.History.{IsWellFormed};

use crate::book::answer;
use crate::commands::{Given, command_of};
use book_texts::day_report;
use calendar_days::{BadDay, read_day};
use day_balances::{Balance, Balances, DayPlaces};
use farm_base::NoMemory;
use farm_book::Book;
use farm_history::{Command, Entry, Gauged, Plan};
use farm_ticket::Way;
use history_lookups::{Ledger, Posted};
use sample_site::sample_site;
use std::alloc::Global;
use std::test::Fail;
use test_checks::{Checks, shared};

// Texts, and the first second of the day that each writes.
type Days = &'static [(&'static str, &'static str, Result<i64, BadDay>)];

const DAYS: Days = &[
    ("the first day", "1970-01-01", Ok(0)),
    ("a leap day", "2024-02-29", Ok(1_709_164_800)),
    ("the last day", "9986-12-31", Ok(252_991_987_200)),
    ("the day before the first", "1969-12-31", Err(BadDay)),
    ("the day after the last", "9987-01-01", Err(BadDay)),
    ("a leap day of a century", "2100-02-29", Err(BadDay)),
    ("a leap day of another year", "2023-02-29", Err(BadDay)),
    ("a month of one digit", "2023-1-14", Err(BadDay)),
    ("no bytes", "", Err(BadDay)),
];

#[test]
fn a_day_is_read_as_its_first_second(rt: HostRuntime) -> Result<(), Fail> {
    let mut checks = Checks::new(&rt);
    for (name, text, want) in DAYS {
        checks.same_at(name, shared(read_day(text.as_bytes())), *want);
    }
    Ok(checks.end()?)
}

#[test]
fn a_bad_day_has_a_text(rt: HostRuntime) -> Result<(), Fail> {
    let mut checks = Checks::new(&rt);
    let text = format!(in rt.alloc(); "{}", shared(BadDay))?;
    checks.same(text.as_str(), "bad day");
    drop(text);
    Ok(checks.end()?)
}

// A moment of 2023-11-14.
const MOMENT: i64 = 1_700_000_000;

// A reading of tank 101, and its sample.
fn gauged_at(reading: u32) -> Gauged {
    Gauged { reading, sample: 1 }
}

// The command at a place of a receipt into tank 101 from party 7.
fn command_at(place: u32) -> Command
    ensures { IsWellFormedCommand result }
{
    match place {
        1 => command_of(Given::Sample(8_500, 0)),
        2 => command_of(Given::Gauge(101, 8_000, 0, 1_500, 1_500)),
        3 => Command::Opening(Plan::Outside {
            way: Way::Inward,
            tank: 101,
            party: 7,
            gauged: gauged_at(2),
        }),
        4 => command_of(Given::Gauge(101, 9_000, 0, 2_500, 1_500)),
        _ => Command::Closing {
            movement: 3,
            first: gauged_at(4),
            second: None,
        },
    }
}

// The entry at a place of the receipt, under the place as its key.
fn entry_at(place: u32) -> Entry
    ensures well_formed { IsWellFormed result }
    ensures moment { result.at ≡ MOMENT }
{
    Entry {
        caller: 1,
        account: 7,
        key: u64::from(place),
        at: MOMENT,
        cmd: command_at(place),
    }
}

// The receipt is entered in a book.
fn receive(book: &mut Book<5>) -> Result<(), NoMemory> {
    for place in 1..=5 {
        if book.last_moment() <= MOMENT {
            answer(book, entry_at(place))?;
        }
    }
    Ok(())
}

// The day, the lines of tank 101, those of the total, and the lines of tickets.
type Report = (&'static str, &'static str, &'static str, &'static str);

const REPORTS: &[Report] = &[
    (
        "2023-11-13",
        "opening 8000000 6800000
receipts 0 0
deliveries 0 0
transfers 0 0
gains 0 0
closing 8000000 6800000
",
        "opening 13000000 11050000
receipts 0 0
deliveries 0 0
transfers 0 0
gains 0 0
closing 13000000 11050000
",
        "",
    ),
    (
        "2023-11-14",
        "opening 8000000 6800000
receipts 925463 786644
deliveries 0 0
transfers 0 0
gains 0 0
closing 8925463 7586644
",
        "opening 13000000 11050000
receipts 925463 786644
deliveries 0 0
transfers 0 0
gains 0 0
closing 13925463 11836644
",
        "ticket 1 place 5 receipt tank 101 party 7 nsv 925463 kg 786644
",
    ),
    (
        "2023-11-15",
        "opening 8925463 7586644
receipts 0 0
deliveries 0 0
transfers 0 0
gains 0 0
closing 8925463 7586644
",
        "opening 13925463 11836644
receipts 0 0
deliveries 0 0
transfers 0 0
gains 0 0
closing 13925463 11836644
",
        "",
    ),
];

// The lines of the other tanks, the same on each day.
const OTHERS: &str = "tank 102
opening 5000000 4250000
receipts 0 0
deliveries 0 0
transfers 0 0
gains 0 0
closing 5000000 4250000
tank 103
opening 0 0
receipts 0 0
deliveries 0 0
transfers 0 0
gains 0 0
closing 0 0
tank 104
opening 0 0
receipts 0 0
deliveries 0 0
transfers 0 0
gains 0 0
closing 0 0
tank 105
opening 0 0
receipts 0 0
deliveries 0 0
transfers 0 0
gains 0 0
closing 0 0
tank 106
opening 0 0
receipts 0 0
deliveries 0 0
transfers 0 0
gains 0 0
closing 0 0
";

// The text of the report that a row says.
fn text_of(alloc: Global, report: Report) -> Result<String, Fail> {
    let (day, tank, total, tickets) = report;
    Ok(format!(in alloc;
        "site Rowsite\nday {day}\ntank 101\n{tank}{OTHERS}total\n{total}{tickets}"
    )?)
}

// The report of the day with this first second.
fn written(alloc: Global, book: &Book<5>, day: i64) -> Result<Vec<u8>, NoMemory>
    requires day { IsFirstSecond day }
{
    let mut out = Vec::new(alloc);
    if let Err(fault) = day_report(book, day, &mut out) {
        drop(out);
        return Err(fault);
    }
    Ok(out)
}

// A book has the report that a row says.
fn check_report<R: Print>(
    checks: &mut Checks<'_, R>,
    alloc: Global,
    book: &Book<5>,
    report: Report,
) -> Result<(), Fail> {
    let day = read_day(report.0.as_bytes())?;
    let want = text_of(alloc, report)?;
    let came = written(alloc, book, day)?;
    checks.same_at(report.0, str::from_utf8(&came), Ok(want.as_str()));
    drop((came, want));
    Ok(())
}

// A book without entries takes the receipt in, and has each report of the rows.
fn check_reports<R: Print>(
    checks: &mut Checks<'_, R>,
    alloc: Global,
    book: &mut Book<5>,
) -> Result<(), Fail> {
    receive(book)?;
    for report in REPORTS {
        check_report(checks, alloc, book, *report)?;
    }
    Ok(())
}

#[test]
fn a_report_has_the_balances_and_the_tickets_of_its_day(rt: HostRuntime) -> Result<(), Fail> {
    let mut checks = Checks::new(&rt);
    let mut book = Book::new(rt.alloc(), sample_site(rt.alloc())?)?;
    let checked = check_reports(&mut checks, rt.alloc(), &mut book);
    drop(book);
    checked?;
    Ok(checks.end()?)
}

// Stands only for a type that is `Send` and `Sync`.
fn crosses<T: Send + Sync>() {}

#[test]
fn balances_and_ledgers_may_go_to_another_thread(_rt: HostRuntime) -> Result<(), Fail> {
    crosses::<Balance>();
    crosses::<Balances>();
    crosses::<DayPlaces>();
    crosses::<Ledger>();
    crosses::<Posted>();
    Ok(())
}
