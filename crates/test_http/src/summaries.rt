//! The summary of a book: as it was opened, and after a day of sixteen entries.

use crate::desks::{RowDesk, empty_disk, new_desk};
use book_texts::summary;
use farm_base::NoMemory;
use farm_desk::Answer;
use farm_http::{LineAsked, posted};
use std::alloc::Global;
use std::test::Fail;
use test_checks::Checks;

// The moment of the clock.
const NOW: i64 = 1_700_000_000;

// The sixteen commands of a day: a receipt, a transfer, a delivery and a settlement.
const DAY: &[(&str, &str)] = &[
    (
        "sample",
        r#"{"account":1,"key":1,"tank":101,"density":8500,"sw":0}"#,
    ),
    (
        "gauge",
        r#"{"account":1,"key":2,"tank":101,"level":8000,"water":0,"temperature":1500,"ambient":1500}"#,
    ),
    (
        "open",
        r#"{"account":1,"key":3,"way":"receipt","tank":101,"party":7,"reading":2,"sample":1}"#,
    ),
    (
        "gauge",
        r#"{"account":1,"key":4,"tank":101,"level":9000,"water":0,"temperature":2500,"ambient":1500}"#,
    ),
    (
        "close",
        r#"{"account":1,"key":5,"movement":3,"reading":4,"sample":1}"#,
    ),
    (
        "sample",
        r#"{"account":1,"key":6,"tank":102,"density":8500,"sw":0}"#,
    ),
    (
        "dip",
        r#"{"account":1,"key":7,"tank":102,"kind":"innage","tapes":[5000,5000],"water":[],"temperatures":[1500],"ambient":1500}"#,
    ),
    (
        "open",
        r#"{"account":1,"key":8,"way":"transfer","from":101,"to":102,"from_reading":4,"from_sample":1,"to_reading":7,"to_sample":6}"#,
    ),
    (
        "dip",
        r#"{"account":1,"key":9,"tank":101,"kind":"outage","tapes":[7500,7500],"water":[],"temperatures":[2500,2500,2500],"ambient":1500}"#,
    ),
    (
        "dip",
        r#"{"account":1,"key":10,"tank":102,"kind":"innage","tapes":[5495,5495],"water":[],"temperatures":[1500],"ambient":1500}"#,
    ),
    (
        "close",
        r#"{"account":1,"key":11,"movement":8,"reading":9,"sample":1,"to_reading":10,"to_sample":6}"#,
    ),
    (
        "open",
        r#"{"account":1,"key":12,"way":"delivery","tank":102,"party":8,"reading":10,"sample":6}"#,
    ),
    (
        "gauge",
        r#"{"account":1,"key":13,"tank":102,"level":4000,"water":0,"temperature":1500,"ambient":1500}"#,
    ),
    (
        "close",
        r#"{"account":1,"key":14,"movement":12,"reading":13,"sample":6}"#,
    ),
    (
        "gauge",
        r#"{"account":1,"key":15,"tank":101,"level":8498,"water":0,"temperature":2500,"ambient":1500}"#,
    ),
    (
        "settle",
        r#"{"account":1,"key":16,"tank":101,"reading":15,"sample":1}"#,
    ),
];

const OPENED: &str = "entries 0
tank 101 litres 8000000 kg 6800000
tank 102 litres 5000000 kg 4250000
tank 103 litres 0 kg 0
tank 104 litres 0 kg 0
tank 105 litres 0 kg 0
tank 106 litres 0 kg 0
total litres 13000000 kg 11050000
";

const AFTER_THE_DAY: &str = "entries 16
tank 101 litres 8427621 kg 7163478
tank 102 litres 4000000 kg 3400000
tank 103 litres 0 kg 0
tank 104 litres 0 kg 0
tank 105 litres 0 kg 0
tank 106 litres 0 kg 0
total litres 12427621 kg 10563478
";

// What a desk answers to a body, if it is one of a command.
fn answer(alloc: Global, desk: &mut RowDesk, word: &str, body: &str) -> Option<Answer> {
    match posted(alloc, word, body.as_bytes()) {
        LineAsked::Ask(ask) => {
            let answer = desk.ask(0, NOW, &ask);
            drop(ask);
            Some(answer)
        }
        LineAsked::Bad | LineAsked::NoMemory => None,
    }
}

// The commands of the day are answered.
fn check_day<R: Print>(checks: &mut Checks<'_, R>, alloc: Global, desk: &mut RowDesk) {
    for (word, body) in DAY {
        let is_done = matches!(answer(alloc, desk, word, body), Some(Answer::Done(_)));
        checks.same_at(body, is_done, true);
    }
}

// The summary of a desk's book is appended to what a buffer has.
fn check_summary<R: Print>(
    checks: &mut Checks<'_, R>,
    desk: &RowDesk,
    out: &mut Vec<u8>,
    want: &str,
) {
    let before = out.len();
    let wrote: Result<(), NoMemory> = summary(desk.book(), out);
    checks.same_at("it was written", wrote, Ok(()));
    let text = out.get(before..).unwrap_or(&[]);
    checks.same_at("a summary", str::from_utf8(text), Ok(want));
}

#[test]
fn a_summary_has_each_tank_and_the_total(rt: HostRuntime) -> Result<(), Fail> {
    let mut checks = Checks::new(&rt);
    let mut desk = new_desk(rt.alloc(), empty_disk(rt.alloc(), &[])?)?;
    let mut out = Vec::new(rt.alloc());
    check_summary(&mut checks, &desk, &mut out, OPENED);
    check_day(&mut checks, rt.alloc(), &mut desk);
    check_summary(&mut checks, &desk, &mut out, AFTER_THE_DAY);
    drop(out);
    drop(desk);
    Ok(checks.end()?)
}
