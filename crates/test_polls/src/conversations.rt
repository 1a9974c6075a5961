//! Whole conversations of one gauge: responses, exceptions, wrong fields, responses cut short, and links that fail.

use crate::gauges::{GAUGE, linked};
use farm_base::NoMemory;
use farm_ports::{LinkCall, Wire};
use modbus_poll::Polled::{Exception, Wrong};
use modbus_poll::{Polled, Poller, Raw};
use std::alloc::Global;
use std::test::Fail;
use test_checks::Checks;

// A reading of 12,345 mm at -12.50 C.
const READING: Polled = Polled::Value(
    0,
    Raw {
        tank: 101,
        level: 12_345,
        water: 0,
        temperature: -1_250,
        ambient: 1_500,
    },
);

const FAULT: Polled = Polled::LinkFault(0);

const NOT_VALID: Polled = Polled::NotValid(0);

// A good response to the first transaction, and one to the second.
const GOOD: [u8; 30] = [
    0, 1, 0, 0, 0, 9, 17, 4, 6, 0x30, 0x39, 0xFF, 0x83, 0, 1, // the first
    0, 2, 0, 0, 0, 9, 17, 4, 6, 0, 0, 0, 0, 0, 1,
];

// A conversation: from this index on these bytes stand in place of the good ones, this many bytes are answered to the first transaction,
// this call of the link fails (none where it is 0), and this is what the poll answers.
type Case = (usize, &'static [u8], usize, u64, Polled);

const CASES: [Case; 56] = [
    // Whole responses: the level, the temperature, and the word with the validity bit.
    (0, &[], 15, 0, READING),
    (13, &[0xFF, 0xFF], 15, 0, READING),
    (13, &[0, 0], 15, 0, NOT_VALID),
    (13, &[0, 2], 15, 0, NOT_VALID),
    (13, &[1, 0], 15, 0, NOT_VALID),
    (13, &[0xFF, 0xFE], 15, 0, NOT_VALID),
    // Bytes after a whole response, another response after it, and a byte before one.
    (0, &[], 16, 0, READING),
    (0, &[], 30, 0, READING),
    (5, &[3, 17, 0x84, 6], 15, 0, Exception(0, 6)),
    (0, &[0, 0, 1], 16, 0, Wrong(0, 1)),
    // Exceptions.
    (5, &[3, 17, 0x84, 1], 9, 0, Exception(0, 1)),
    (5, &[3, 17, 0x84, 2], 9, 0, Exception(0, 2)),
    (5, &[3, 17, 0x84, 11], 9, 0, Exception(0, 11)),
    (5, &[3, 17, 0x84, 0], 9, 0, Exception(0, 0)),
    (5, &[3, 17, 0x84, 255], 9, 0, Exception(0, 255)),
    (5, &[3, 17, 0x83, 2], 9, 0, Wrong(0, 5)),
    (5, &[3, 18, 0x84, 2], 9, 0, Wrong(0, 4)),
    (0, &[0, 2, 0, 0, 0, 3, 17, 0x84, 2], 9, 0, Wrong(0, 1)),
    // Each field wrong.
    (0, &[1], 15, 0, Wrong(0, 1)),
    (1, &[2], 15, 0, Wrong(0, 1)),
    (1, &[0], 15, 0, Wrong(0, 1)),
    (2, &[1], 15, 0, Wrong(0, 2)),
    (3, &[1], 15, 0, Wrong(0, 2)),
    (4, &[1], 15, 0, Wrong(0, 3)),
    (5, &[8], 15, 0, Wrong(0, 3)),
    (5, &[10], 15, 0, Wrong(0, 3)),
    (5, &[0], 15, 0, Wrong(0, 3)),
    (6, &[18], 15, 0, Wrong(0, 4)),
    (6, &[0], 15, 0, Wrong(0, 4)),
    (7, &[3], 15, 0, Wrong(0, 5)),
    (7, &[0x84], 15, 0, Wrong(0, 5)),
    (5, &[3], 15, 0, Wrong(0, 5)),
    (8, &[4], 15, 0, Wrong(0, 6)),
    (8, &[0], 15, 0, Wrong(0, 6)),
    // A wrong field, and then nothing.
    (1, &[2], 2, 0, Wrong(0, 1)),
    (3, &[1], 4, 0, Wrong(0, 2)),
    (5, &[8], 6, 0, Wrong(0, 3)),
    (6, &[18], 7, 0, Wrong(0, 4)),
    (7, &[3], 8, 0, Wrong(0, 5)),
    // Responses cut short; one byte of the transaction alone isn't wrong yet.
    (0, &[], 0, 0, FAULT),
    (0, &[], 1, 0, FAULT),
    (0, &[1], 1, 0, FAULT),
    (0, &[], 2, 0, FAULT),
    (0, &[], 4, 0, FAULT),
    (0, &[], 5, 0, FAULT),
    (0, &[], 6, 0, FAULT),
    (0, &[], 7, 0, FAULT),
    (0, &[], 8, 0, FAULT),
    (0, &[], 9, 0, FAULT),
    (0, &[], 14, 0, FAULT),
    (5, &[3, 17, 0x84], 8, 0, FAULT),
    // A link that fails at its connect, its send, its first and its second receive, and only in the next poll.
    (0, &[], 15, 1, FAULT),
    (0, &[], 15, 2, FAULT),
    (0, &[], 15, 3, FAULT),
    (0, &[], 15, 4, FAULT),
    (0, &[], 15, 5, READING),
];

// Puts these bytes in place of others, from an index on.
fn put(bytes: &mut [u8], at: usize, other: &[u8]) {
    for (index, byte) in other.iter().enumerate() {
        if let Some(place) = bytes.get_mut(at.saturating_add(index)) {
            *place = *byte;
        }
    }
}

// The good responses with other bytes from this index on, and this many of them.
fn response(alloc: Global, at: usize, other: &[u8], size: usize) -> Result<Vec<u8>, NoMemory> {
    let mut bytes = GOOD.to_vec(alloc)?;
    put(&mut bytes, at, other);
    bytes.truncate(size);
    Ok(bytes)
}

// Whether a call is a connect.
fn is_connect(call: &&LinkCall) -> bool {
    matches!(call, LinkCall::Connect { .. })
}

// The answer of the first of two polls, and whether the second one begins without a connect.
fn poll_twice(poller: &mut Poller, wire: &mut Wire) -> (Polled, bool) {
    let answer = poller.turn(wire);
    poller.turn(wire);
    let connects = wire.calls().iter().filter(is_connect).count();
    (answer, connects == 1)
}

// The same of a poller at a link with this response, one call of which fails.
fn converse(alloc: Global, response: &[u8], fails: u64) -> Result<(Polled, bool), NoMemory> {
    let (mut poller, mut wire) = linked(alloc, GAUGE, &[response], &[fails])?;
    let answer = poll_twice(&mut poller, &mut wire);
    drop((wire, poller));
    Ok(answer)
}

// Whether the connection stands after an answer.
fn stands_after(answer: Polled) -> bool {
    match answer {
        Polled::Value(_, _) | Polled::NotValid(_) | Exception(_, _) => true,
        Wrong(_, _) | Polled::LinkFault(_) => false,
    }
}

// A conversation has its answer, and the connection stands after it or not.
fn check_case<R: Print>(
    checks: &mut Checks<'_, R>,
    alloc: Global,
    number: usize,
    (at, other, size, fails, want): Case,
) -> Result<(), NoMemory> {
    let response = response(alloc, at, other, size)?;
    let got = converse(alloc, &response, fails);
    drop(response);
    checks.same_at(number, got?, (want, stands_after(want)));
    Ok(())
}

#[test]
fn each_conversation_has_its_answer(rt: HostRuntime) -> Result<(), Fail> {
    let mut checks = Checks::new(&rt);
    for (number, case) in CASES.iter().enumerate() {
        check_case(&mut checks, rt.alloc(), number, *case)?;
    }
    Ok(checks.end()?)
}
