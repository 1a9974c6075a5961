//! The turns of a poller with the calls that they make on a link, and the copy of a line.

use crate::calls::{Call, outline};
use crate::gauges::{GAUGE, line, linked};
use farm_base::NoMemory;
use farm_ports::{LinkCall, Wire};
use modbus_poll::{LineMap, Polled, Poller, Raw};
use std::alloc::Global;
use std::test::Fail;
use test_checks::{Checks, shared};

const FIRST: [u8; 15] = [0, 1, 0, 0, 0, 9, 17, 4, 6, 0x30, 0x39, 0, 200, 0, 1];

const OF_ANOTHER_UNIT: [u8; 15] = [0, 2, 0, 0, 0, 9, 18, 4, 6, 0x30, 0x39, 0, 200, 0, 1];

const THIRD: [u8; 15] = [0, 3, 0, 0, 0, 9, 17, 4, 6, 0x30, 0x39, 0, 200, 0, 1];

// 12,345 mm at 20.00 C.
const READING: Polled = Polled::Value(
    0,
    Raw {
        tank: 101,
        level: 12_345,
        water: 0,
        temperature: 2_000,
        ambient: 1_500,
    },
);

// Turns of a poller, each with its answer.
type Turns = &'static [(&'static str, Polled)];

// Calls that a link took, in their order.
type Calls = &'static [(&'static str, Call)];

// The next turns of a poller at its link are answered as their rows say.
fn check_turns<R: Print>(
    checks: &mut Checks<'_, R>,
    poller: &mut Poller,
    wire: &mut Wire,
    turns: Turns,
) {
    for (name, want) in turns {
        checks.same_at(name, shared(poller.turn(wire)), *want);
    }
}

// These are the calls, and no others.
fn check_calls<R: Print>(checks: &mut Checks<'_, R>, calls: &[LinkCall], wants: Calls) {
    checks.same_at("how many calls", calls.len(), wants.len());
    for ((name, want), call) in wants.iter().zip(calls) {
        checks.same_at(name, outline(call), *want);
    }
}

// The calls of four turns: those of the first three and the beginning of the fourth, and these last ones.
fn check_all_calls<R: Print>(checks: &mut Checks<'_, R>, calls: &[LinkCall], last: Calls) {
    check_calls(checks, calls.get(..8).unwrap_or(&[]), CALLS);
    check_calls(checks, calls.get(8..).unwrap_or(&[]), last);
}

// The turns of a poller at a link with these responses, whose first call fails, and the calls that they make.
fn check_polling<R: Print>(
    checks: &mut Checks<'_, R>,
    alloc: Global,
    responses: &[&[u8]],
    turns: Turns,
    last: Calls,
) -> Result<(), Fail> {
    let (mut poller, mut wire) = linked(alloc, GAUGE, responses, &[1])?;
    check_turns(checks, &mut poller, &mut wire, turns);
    check_all_calls(checks, wire.calls(), last);
    drop((wire, poller));
    Ok(())
}

// What the first three turns call, and the beginning of the fourth.
const CALLS: Calls = &[
    ("a connect that fails", Call::Connect(true)),
    ("a connect", Call::Connect(false)),
    ("the first request", Call::Sent(1)),
    ("what has the length", Call::Received(9, false)),
    ("the rest", Call::Received(6, false)),
    ("the second request", Call::Sent(2)),
    ("what has another unit", Call::Received(9, false)),
    ("a connect after it", Call::Connect(false)),
];

const FOUR_TURNS: Turns = &[
    ("a link that fails", Polled::LinkFault(0)),
    ("the first response", READING),
    ("one of another unit", Polled::Wrong(0, 4)),
    ("the third response", READING),
];

const LAST_CALLS: Calls = &[
    ("the third request", Call::Sent(3)),
    ("what has the length again", Call::Received(9, false)),
    ("the rest again", Call::Received(6, false)),
];

#[test]
fn a_poller_goes_on_after_faults(rt: HostRuntime) -> Result<(), Fail> {
    let mut checks = Checks::new(&rt);
    let responses: [&[u8]; 3] = [&FIRST, &OF_ANOTHER_UNIT, &THIRD];
    check_polling(&mut checks, rt.alloc(), &responses, FOUR_TURNS, LAST_CALLS)?;
    Ok(checks.end()?)
}

const UNTIL_SILENCE: Turns = &[
    ("a link that fails", Polled::LinkFault(0)),
    ("the first response", READING),
    ("one of another unit", Polled::Wrong(0, 4)),
    ("silence", Polled::LinkFault(0)),
];

const SILENCE: Calls = &[
    ("the third request", Call::Sent(3)),
    ("nothing received", Call::Received(0, true)),
];

#[test]
fn a_device_that_falls_silent_is_a_fault(rt: HostRuntime) -> Result<(), Fail> {
    let mut checks = Checks::new(&rt);
    let responses: [&[u8]; 2] = [&FIRST, &OF_ANOTHER_UNIT];
    check_polling(&mut checks, rt.alloc(), &responses, UNTIL_SILENCE, SILENCE)?;
    Ok(checks.end()?)
}

// A part of a line.
#[derive(Clone, Copy)]
enum Part {
    Host,
    Port,
    Gauges,
}

const PARTS: &[(&str, Part)] = &[
    ("the host", Part::Host),
    ("the port", Part::Port),
    ("the gauges", Part::Gauges),
];

// A copy has the same part as the line.
fn check_part<R: Print>(
    checks: &mut Checks<'_, R>,
    copy: &LineMap,
    line: &LineMap,
    (name, part): (&str, Part),
) {
    match part {
        Part::Host => checks.same_at(name, copy.host.get(), line.host.get()),
        Part::Port => checks.same_at(name, copy.port, 502),
        Part::Gauges => checks.same_at(name, copy.gauges.get(), line.gauges.get()),
    }
}

// A copy has the parts of its line.
fn check_parts<R: Print>(checks: &mut Checks<'_, R>, copy: &LineMap, line: &LineMap) {
    for part in PARTS {
        check_part(checks, copy, line, *part);
    }
}

// A line and its copy.
fn line_and_copy(alloc: Global) -> Result<(LineMap, LineMap), NoMemory> {
    let line = line(alloc, GAUGE)?;
    match line.copy(alloc) {
        Ok(copy) => Ok((line, copy)),
        Err(fault) => {
            drop(line);
            Err(fault)
        }
    }
}

#[test]
fn a_copied_line_is_polled_as_the_line_is(rt: HostRuntime) -> Result<(), Fail> {
    let mut checks = Checks::new(&rt);
    let (line, copy) = line_and_copy(rt.alloc())?;
    check_parts(&mut checks, &copy, &line);
    drop((copy, line));
    Ok(checks.end()?)
}
