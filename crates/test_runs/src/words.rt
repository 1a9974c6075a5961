//! The words after the program's name.

use crate::running::{Answer, answer, check_answer, words_of};
use command_line::{NamedPlaces, places};
use farm_ports::Gather;
use farm_run::report_no_memory;
use std::alloc::Global;
use std::test::Fail;
use test_checks::Checks;

const USAGE: &str = "usage: farm calc|init|table|batch|serve|report|drill\n";

#[test]
fn usage_line(rt: HostRuntime) -> Result<(), Fail> {
    let mut checks = Checks::new(&rt);
    let came = answer(rt.alloc(), &[], "", sample_site::row_folder(rt.alloc())?)?;
    check_answer(&mut checks, "no words", came, 1, USAGE);
    Ok(checks.end()?)
}

// The site's folder and the journal's file that words name.
fn places_of(alloc: Global, words: &[&str]) -> Result<NamedPlaces, Fail> {
    let owned = words_of(alloc, words)?;
    let named = places(alloc, &owned);
    drop(owned);
    Ok(named.ok_or("out of memory")?)
}

// Words, and the folder and the file that they name.
const PLACES: &[(&str, &[&str], (&str, &str))] = &[
    ("a folder", &["table", "--site", "d"], ("d", "")),
    (
        "a folder in one word",
        &["table", "--site=d/e"],
        ("d/e", ""),
    ),
    (
        "a folder with a hyphen",
        &["table", "--site", "-d"],
        ("", ""),
    ),
    (
        "an option of another command",
        &["batch", "--site=d"],
        ("", ""),
    ),
    ("a journal", &["batch", "--journal", "j"], ("", "j")),
    (
        "a folder and a journal",
        &["init", "--journal=j", "--site", "d"],
        ("d", "j"),
    ),
    ("a missing journal", &["init", "--site", "d"], ("", "")),
    ("no option", &["calc"], ("", "")),
    (
        "a value that begins with an equals sign",
        &["report", "--journal==x", "--day", "2023-11-14"],
        ("", "=x"),
    ),
    (
        "a journal and a day",
        &["report", "--day=2023-11-14", "--journal", "j"],
        ("", "j"),
    ),
    (
        "a day that the calendar hasn't",
        &["report", "--journal", "j", "--day", "2023-02-29"],
        ("", ""),
    ),
    (
        "a drill",
        &["drill", "--seed", "1", "--count", "0"],
        ("", ""),
    ),
];

// Words name these places.
fn check_places<R: Print>(
    checks: &mut Checks<'_, R>,
    alloc: Global,
    name: &str,
    words: &[&str],
    want: (&str, &str),
) -> Result<(), Fail> {
    let places = places_of(alloc, words)?;
    checks.same_at(name, (places.site.as_str(), places.journal.as_str()), want);
    drop(places);
    Ok(())
}

#[test]
fn places_of_words(rt: HostRuntime) -> Result<(), Fail> {
    let mut checks = Checks::new(&rt);
    for (name, words, want) in PLACES {
        check_places(&mut checks, rt.alloc(), name, words, *want)?;
    }
    Ok(checks.end()?)
}

// The put that fails, and what is reported.
const REPORTS: &[(&str, u64, (u8, &str))] = &[
    ("no put fails", 0, (7, "no memory\n")),
    ("the first put fails", 1, (6, "port fault\n")),
];

// The report of missing memory, where the put of this number fails.
fn report_of(alloc: Global, failing: u64) -> Result<Answer, Fail> {
    let fails = Vec::from_slice(alloc, &[failing])?;
    let mut sink = Gather::new(alloc, fails)?;
    let status = report_no_memory(&mut sink);
    let bytes = Vec::from_slice(alloc, sink.bytes());
    drop(sink);
    Ok((status, bytes?))
}

#[test]
fn out_of_memory_is_reported(rt: HostRuntime) -> Result<(), Fail> {
    let mut checks = Checks::new(&rt);
    for (name, failing, (status, text)) in REPORTS {
        let report = report_of(rt.alloc(), *failing)?;
        check_answer(&mut checks, name, report, *status, text);
    }
    Ok(checks.end()?)
}
