//! Bodies that are posted to a command's path.

use farm_history::{Ask, Command, Few, Gauged, Plan};
use farm_http::{LineAsked, posted};
use farm_ticket::Way;
use std::alloc::Global;
use std::test::Fail;
use test_checks::{Checks, shared};

// The account, the key and the command that a body asks to record.
fn done_of(asked: &LineAsked) -> Result<(u32, u64, &Command), &LineAsked> {
    match asked {
        LineAsked::Ask(Ask::Do { account, key, cmd }) => Ok((*account, *key, cmd)),
        _ => Err(asked),
    }
}

/// The words of commands, bodies, and the commands that they ask for under account 1 and key 3.
pub type Bodies = &'static [(&'static str, &'static str, Command)];

/// What is measured of a tank.
pub const MEASURED: Bodies = &[
    (
        "gauge",
        r#"{"account":1,"key":3,"tank":101,"level":8000,"water":0,"temperature":1500,"ambient":1400}"#,
        Command::Gauge {
            tank: 101,
            level: 8_000,
            water: 0,
            temperature: 1_500,
            ambient: 1_400,
        },
    ),
    (
        "dip",
        r#"{"account":1,"key":3,"tank":102,"kind":"innage","tapes":[5000,5001],"water":[],"temperatures":[1500],"ambient":1400}"#,
        Command::Dip {
            tank: 102,
            outage: false,
            tapes: Few {
                count: 2,
                values: [5_000, 5_001, 0, 0, 0, 0, 0, 0],
            },
            water: Few {
                count: 0,
                values: [0; 8],
            },
            temperatures: Few {
                count: 1,
                values: [1_500, 0, 0, 0, 0, 0, 0, 0],
            },
            ambient: 1_400,
        },
    ),
    (
        "sample",
        r#"{"account":1,"key":3,"tank":101,"density":8500,"sw":10}"#,
        Command::Sample {
            tank: 101,
            density: 8_500,
            sw: 10,
        },
    ),
];

/// A movement: its opening, its closing, and one that is given up.
pub const MOVED: Bodies = &[
    (
        "open",
        r#"{"account":1,"key":3,"way":"delivery","tank":102,"party":8,"reading":10,"sample":6}"#,
        Command::Opening(Plan::Outside {
            way: Way::Outward,
            tank: 102,
            party: 8,
            gauged: Gauged {
                reading: 10,
                sample: 6,
            },
        }),
    ),
    (
        "close",
        r#"{"account":1,"key":3,"movement":12,"reading":13,"sample":6}"#,
        Command::Closing {
            movement: 12,
            first: Gauged {
                reading: 13,
                sample: 6,
            },
            second: None,
        },
    ),
    (
        "cancel",
        r#"{"account":1,"key":3,"movement":12}"#,
        Command::Cancel { movement: 12 },
    ),
];

/// A settlement, a reversal, and Stops.
pub const ENDED: Bodies = &[
    (
        "settle",
        r#"{"account":1,"key":3,"tank":101,"reading":15,"sample":1}"#,
        Command::Settle {
            tank: 101,
            gauged: Gauged {
                reading: 15,
                sample: 1,
            },
        },
    ),
    (
        "reverse",
        r#"{"account":1,"key":3,"ticket":14}"#,
        Command::Reverse { ticket: 14 },
    ),
    ("stop", r#"{"account":1,"key":3}"#, Command::Stop),
    (
        "stop",
        r#"{"do":"gauge","account":1,"key":3,"level":8000}"#,
        Command::Stop,
    ),
    (
        "stop",
        r#"{"account":2,"key":4,"account":1,"key":3}"#,
        Command::Stop,
    ),
];

// A body asks for its word's command.
fn check_body<R: Print>(
    checks: &mut Checks<'_, R>,
    alloc: Global,
    word: &str,
    text: &str,
    want: &Command,
) {
    let asked = shared(posted(alloc, word, text.as_bytes()));
    checks.same_at(text, done_of(&asked), Ok((1, 3, want)));
    drop(asked);
}

// Each body asks for its word's command.
fn check_bodies<R: Print>(checks: &mut Checks<'_, R>, alloc: Global, rows: Bodies) {
    for (word, text, want) in rows {
        check_body(checks, alloc, word, text, want);
    }
}

#[test]
fn a_body_is_its_paths_command(rt: HostRuntime) -> Result<(), Fail> {
    let mut checks = Checks::new(&rt);
    for rows in [MEASURED, MOVED, ENDED] {
        check_bodies(&mut checks, rt.alloc(), rows);
    }
    Ok(checks.end()?)
}

// Names, words and bodies that ask for nothing.
const BAD: &[(&str, &str, &str)] = &[
    ("a word of a look-up", "total", r#"{"account":1,"key":3}"#),
    ("a word in capitals", "Stop", r#"{"account":1,"key":3}"#),
    ("a word that is a path", "/stop", r#"{"account":1,"key":3}"#),
    (
        "a member that is missing",
        "gauge",
        r#"{"account":1,"key":3,"tank":101,"level":8000,"water":0,"temperature":1500}"#,
    ),
    ("no account", "stop", r#"{"key":3}"#),
    ("no key", "stop", r#"{"account":1}"#),
    ("an account of 0", "stop", r#"{"account":0,"key":3}"#),
    (
        "a level that is too large for its form",
        "gauge",
        r#"{"account":1,"key":3,"tank":101,"level":9223372036854775808,"water":0,"temperature":1500,"ambient":1500}"#,
    ),
    ("no byte", "stop", ""),
    ("a list", "stop", "[]"),
    ("a form", "stop", "account=1&key=3"),
    (
        "an object that isn't whole",
        "stop",
        r#"{"account":1,"key":3"#,
    ),
    ("two objects", "stop", r#"{"account":1,"key":3}{}"#),
];

#[test]
fn another_body_asks_for_nothing(rt: HostRuntime) -> Result<(), Fail> {
    let mut checks = Checks::new(&rt);
    for (name, word, text) in BAD {
        let asked = posted(rt.alloc(), word, text.as_bytes());
        checks.same_at(name, asked, LineAsked::Bad);
    }
    Ok(checks.end()?)
}
