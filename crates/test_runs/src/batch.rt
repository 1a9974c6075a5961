//! `batch` on the journal of the row site.

use crate::batch_rows::check_batch;
use crate::running::{batch_answer, check_answer, source_of};
use farm_batch::BatchEnd;
use farm_history::{Gauged, Named, Query};
use farm_ports::Script;
use std::alloc::Global;
use std::test::Fail;
use test_checks::{Checks, shared};

// Lines and their answers, in one batch: after a Stop no line is asked.
const FIRST_BATCH: &[(&str, &str)] = &[
    (
        r#"{"do":"sample","account":1,"key":1,"tank":101,"density":8500,"sw":0}"#,
        r#"{"place":1}"#,
    ),
    (
        r#"{"do":"sample","account":1,"key":1,"tank":101,"density":8500,"sw":0}"#,
        r#"{"place":1}"#,
    ),
    (
        r#"{"do":"sample","account":1,"key":1,"tank":101,"density":8500,"sw":1}"#,
        r#"{"rule":1,"value":1}"#,
    ),
    (
        r#"{"do":"sample","account":1,"key":2,"tank":99,"density":8500,"sw":0}"#,
        r#"{"rule":3,"value":0}"#,
    ),
    ("", r#"{"error":400}"#),
    (r#"{"do":"stop","account":1,"key":3}"#, r#"{"place":2}"#),
];

// Gauge readings of tank 101, its table up to 15,000 mm.
const GAUGES: &[(&str, &str)] = &[
    (
        r#"{"do":"gauge","account":1,"key":1,"tank":101,"level":15001,"water":15002,"temperature":1500,"ambient":1500}"#,
        r#"{"rule":7,"value":0}"#,
    ),
    (
        r#"{"do":"gauge","account":1,"key":1,"tank":101,"level":10,"water":11,"temperature":1500,"ambient":1500}"#,
        r#"{"rule":8,"value":0}"#,
    ),
    (
        r#"{"do":"gauge","account":1,"key":1,"tank":101,"level":50001,"water":0,"temperature":1500,"ambient":1500}"#,
        r#"{"rule":5,"value":1}"#,
    ),
    (
        r#"{"do":"gauge","account":1,"key":1,"tank":101,"level":9223372036854775808,"water":0,"temperature":1500,"ambient":1500}"#,
        r#"{"error":400}"#,
    ),
    (
        r#"{"do":"gauge","account":1,"key":1,"tank":101,"level":1.0,"water":0,"temperature":1500,"ambient":1500}"#,
        r#"{"error":400}"#,
    ),
    (
        r#"{"do":"gauge","account":1,"key":1,"tank":101,"level":1e3,"water":0,"temperature":1500,"ambient":1500}"#,
        r#"{"error":400}"#,
    ),
    (
        r#"{"do":"gauge","account":1,"key":1,"tank":101,"level":-0,"water":0,"temperature":1500,"ambient":1500}"#,
        r#"{"error":400}"#,
    ),
];

// Dips of tank 101, its reference height 16,000 mm.
const DIPS: &[(&str, &str)] = &[
    (
        r#"{"do":"dip","account":1,"key":1,"tank":101,"kind":"innage","tapes":[5000,5000],"water":[],"temperatures":[1500],"ambient":1500}"#,
        r#"{"place":1}"#,
    ),
    (
        r#"{"do":"dip","account":1,"key":2,"tank":101,"kind":"innage","tapes":[5000,5000],"water":[1],"temperatures":[1500],"ambient":1500}"#,
        r#"{"rule":6,"value":4}"#,
    ),
    (
        r#"{"do":"dip","account":1,"key":2,"tank":101,"kind":"innage","tapes":[5000,5000],"water":[1,2],"temperatures":[1500],"ambient":1500}"#,
        r#"{"rule":6,"value":5}"#,
    ),
    (
        r#"{"do":"dip","account":1,"key":2,"tank":101,"kind":"innage","tapes":[5000,5000],"water":[5001,5001],"temperatures":[1500],"ambient":1500}"#,
        r#"{"rule":8,"value":0}"#,
    ),
    (
        r#"{"do":"dip","account":1,"key":2,"tank":101,"kind":"outage","tapes":[16001,16001],"water":[],"temperatures":[1500],"ambient":1500}"#,
        r#"{"rule":6,"value":3}"#,
    ),
    (
        r#"{"do":"dip","account":1,"key":2,"tank":101,"kind":"outage","tapes":[999,999],"water":[],"temperatures":[1500],"ambient":1500}"#,
        r#"{"rule":7,"value":0}"#,
    ),
    (
        r#"{"do":"dip","account":1,"key":2,"tank":101,"kind":"outage","tapes":[1000,1000],"water":[],"temperatures":[1500],"ambient":1500}"#,
        r#"{"place":2}"#,
    ),
];

#[test]
fn each_line_of_a_batch_has_its_answer(rt: HostRuntime) -> Result<(), Fail> {
    let mut checks = Checks::new(&rt);
    for rows in [FIRST_BATCH, GAUGES, DIPS] {
        check_batch(&mut checks, rt.alloc(), &[rows])?;
    }
    Ok(checks.end()?)
}

// An empty line, a Stop, and a line after it, which is left.
const AROUND_A_STOP: &[&[u8]] = &[b"\n", b"{\"do\":\"stop\",\"account\":1,\"key\":3}\n", b"\n"];

const UP_TO_THE_STOP: &str = "{\"error\":400}\n{\"place\":1}\n";

// What a batch answers to a source that continues after a Stop, and what it leaves of it.
fn check_stop<R: Print>(
    checks: &mut Checks<'_, R>,
    alloc: Global,
    source: &mut Script,
) -> Result<(), Fail> {
    let answer = batch_answer(alloc, source)?;
    check_answer(checks, "a batch", answer, 0, UP_TO_THE_STOP);
    checks.same_at("what is left", source.left(), b"\n".as_slice());
    Ok(())
}

#[test]
fn nothing_is_taken_after_a_stop(rt: HostRuntime) -> Result<(), Fail> {
    let mut checks = Checks::new(&rt);
    let mut source = source_of(rt.alloc(), AROUND_A_STOP, Vec::new(rt.alloc()))?;
    let stop = check_stop(&mut checks, rt.alloc(), &mut source);
    drop(source);
    stop?;
    Ok(checks.end()?)
}

#[test]
fn how_a_batch_ended_may_go_to_another_thread(rt: HostRuntime) -> Result<(), Fail> {
    let mut checks = Checks::new(&rt);
    checks.same(shared(BatchEnd::Long(3)), BatchEnd::Long(3));
    Ok(checks.end()?)
}

#[test]
fn what_is_looked_up_and_named_may_go_to_another_thread(rt: HostRuntime) -> Result<(), Fail> {
    let mut checks = Checks::new(&rt);
    let queries = [
        ("a ticket", Query::Ticket(5)),
        ("a stock", Query::Stock(101)),
        ("the total", Query::Total),
    ];
    for (name, query) in queries {
        checks.same_at(name, shared(query), query);
    }
    let named = Named {
        tank: 101,
        gauged: Gauged {
            reading: 4,
            sample: 1,
        },
    };
    checks.same_at("what is named", shared(named), named);
    Ok(checks.end()?)
}
