//! Each way in which a poll of one register ends, and the good poll after it: under which number, and whether it connects first.

use crate::calls::{Call, outline};
use crate::gauges::{GAUGE, PLAIN, linked};
use farm_base::NoMemory;
use farm_ports::Wire;
use modbus_poll::Polled::{Exception, Wrong};
use modbus_poll::{GaugeMap, Polled, Poller, Raw};
use std::alloc::Global;
use std::test::Fail;
use test_checks::Checks;

// The input register 8 of unit 17, which is the level and the temperature.
const REGISTER: GaugeMap = GaugeMap {
    quantity: 1,
    temperature: PLAIN,
    valid: None,
    ..GAUGE
};

// The register is 10.
const READING: Polled = Polled::Value(
    0,
    Raw {
        tank: 101,
        level: 10,
        water: 0,
        temperature: 10,
        ambient: 1_500,
    },
);

const FAULT: Polled = Polled::LinkFault(0);

// A good response to the first request, and one to the second.
const FIRST: &[u8] = &[0, 1, 0, 0, 0, 5, 17, 4, 2, 0, 10];

const SECOND: &[u8] = &[0, 2, 0, 0, 0, 5, 17, 4, 2, 0, 10];

// What the good poll calls if the connection stands, and if it was dropped: it asks under the number 2.
const KEPT: &[Call] = &[
    Call::Sent(2),
    Call::Received(9, false),
    Call::Received(2, false),
];

const DROPPED: &[Call] = &[
    Call::Connect(false),
    Call::Sent(2),
    Call::Received(9, false),
    Call::Received(2, false),
];

// What it calls if there was no connection: the number 1 isn't spent.
const NEVER_CONNECTED: &[Call] = &[
    Call::Connect(false),
    Call::Sent(1),
    Call::Received(9, false),
    Call::Received(2, false),
];

// How a poll ends: its name, the responses of the device to both polls, which call of the link fails (none if it is 0), the answer of the
// first poll, and the calls of the second.
type Row = (
    &'static str,
    &'static [&'static [u8]],
    u64,
    Polled,
    &'static [Call],
);

const ROWS: &[Row] = &[
    ("a good response", &[FIRST, SECOND], 0, READING, KEPT),
    (
        "the transaction 2",
        &[&[0, 2, 0, 0, 0, 5, 17, 4, 2, 0, 10], SECOND],
        0,
        Wrong(0, 1),
        DROPPED,
    ),
    (
        "the protocol 1",
        &[&[0, 1, 0, 1, 0, 5, 17, 4, 2, 0, 10], SECOND],
        0,
        Wrong(0, 2),
        DROPPED,
    ),
    (
        "the length 6",
        &[&[0, 1, 0, 0, 0, 6, 17, 4, 2, 0, 10], SECOND],
        0,
        Wrong(0, 3),
        DROPPED,
    ),
    (
        "the length 4",
        &[&[0, 1, 0, 0, 0, 4, 17, 4, 2, 0, 10], SECOND],
        0,
        Wrong(0, 3),
        DROPPED,
    ),
    (
        "the length 65,535",
        &[&[0, 1, 0, 0, 0xFF, 0xFF, 17, 4, 2, 0, 10], SECOND],
        0,
        Wrong(0, 3),
        DROPPED,
    ),
    (
        "the unit 18",
        &[&[0, 1, 0, 0, 0, 5, 18, 4, 2, 0, 10], SECOND],
        0,
        Wrong(0, 4),
        DROPPED,
    ),
    (
        "the function 3",
        &[&[0, 1, 0, 0, 0, 5, 17, 3, 2, 0, 10], SECOND],
        0,
        Wrong(0, 5),
        DROPPED,
    ),
    (
        "an exception of the length 5",
        &[&[0, 1, 0, 0, 0, 5, 17, 0x84, 2, 0, 10], SECOND],
        0,
        Wrong(0, 5),
        DROPPED,
    ),
    (
        "registers of the length 3",
        &[&[0, 1, 0, 0, 0, 3, 17, 4, 2, 0, 10], SECOND],
        0,
        Wrong(0, 5),
        DROPPED,
    ),
    (
        "the byte count 4",
        &[&[0, 1, 0, 0, 0, 5, 17, 4, 4, 0, 10], SECOND],
        0,
        Wrong(0, 6),
        DROPPED,
    ),
    (
        "an exception of the code 255",
        &[&[0, 1, 0, 0, 0, 3, 17, 0x84, 0xFF], SECOND],
        0,
        Exception(0, 255),
        KEPT,
    ),
    ("a connect that fails", &[FIRST], 1, FAULT, NEVER_CONNECTED),
    ("a send that fails", &[SECOND], 2, FAULT, DROPPED),
    (
        "a receive that fails at once",
        &[FIRST, SECOND],
        3,
        FAULT,
        DROPPED,
    ),
    (
        "a receive that fails after five bytes",
        &[&[0, 1, 0, 0, 0], SECOND],
        0,
        FAULT,
        DROPPED,
    ),
];

// Whether the link took these calls, and no others, after the first ones.
fn took(wire: &Wire, first: usize, calls: &[Call]) -> bool {
    let taken = wire.calls().get(first..).unwrap_or(&[]);
    let mut pairs = taken.iter().zip(calls);
    taken.len() == calls.len() && pairs.all(|(call, want)| outline(call) == *want)
}

// The answers of two polls, and whether the second one made these calls.
fn poll_twice(poller: &mut Poller, wire: &mut Wire, calls: &[Call]) -> (Polled, Polled, bool) {
    let first = poller.turn(wire);
    let before = wire.calls().len();
    let second = poller.turn(wire);
    (first, second, took(wire, before, calls))
}

// The same of a poller at a link with these responses, one call of which fails.
fn converse(
    alloc: Global,
    responses: &[&[u8]],
    fails: u64,
    calls: &[Call],
) -> Result<(Polled, Polled, bool), NoMemory> {
    let (mut poller, mut wire) = linked(alloc, REGISTER, responses, &[fails])?;
    let answers = poll_twice(&mut poller, &mut wire, calls);
    drop((wire, poller));
    Ok(answers)
}

// A poll has its answer, and after it a good one makes its calls.
fn check_row<R: Print>(
    checks: &mut Checks<'_, R>,
    alloc: Global,
    (name, responses, fails, answer, calls): Row,
) -> Result<(), NoMemory> {
    let came = converse(alloc, responses, fails, calls)?;
    checks.same_at(name, came, (answer, READING, true));
    Ok(())
}

#[test]
fn a_good_poll_follows_each_answer(rt: HostRuntime) -> Result<(), Fail> {
    let mut checks = Checks::new(&rt);
    for row in ROWS {
        check_row(&mut checks, rt.alloc(), *row)?;
    }
    Ok(checks.end()?)
}
