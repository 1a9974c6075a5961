//! The reading of registers and their validity bits, as a poll answers them.

ghost use Rattle.std.specs.Prelude.{◌<◌, IsTrue};
ghost use Rattle.gauge_maps.specs.Maps.{is_gauge_map};

use crate::gauges::{GAUGE, PLAIN, linked};
use farm_base::NoMemory;
use modbus_poll::{Field, GaugeMap, Polled, Raw, Valid};
use std::alloc::Global;
use std::test::Fail;
use test_checks::{Checks, shared};

// A response with the registers 0x3039, 0x0000 and 0xFF83.
const RESPONSE: [u8; 15] = [0, 1, 0, 0, 0, 9, 17, 4, 6, 0x30, 0x39, 0, 0, 0xFF, 0x83];

// A level of two words, the low one first, and a temperature in 0.1 C.
const LONG_GAUGE: GaugeMap = GaugeMap {
    level: Field {
        words: 2,
        swapped: true,
        ..PLAIN
    },
    temperature: Field {
        offset: 2,
        signed: true,
        mul: 10,
        ..PLAIN
    },
    ..GAUGE
};

// What those registers say of it.
const READING: Raw = Raw {
    tank: 101,
    level: 12_345,
    water: 0,
    temperature: -1_250,
    ambient: 1_500,
};

// The answer of the first poll of a gauge with those registers.
fn answer_of(alloc: Global, gauge: GaugeMap) -> Result<Polled, NoMemory>
    requires { IsTrue (is_gauge_map gauge) }
{
    let (mut poller, mut wire) = linked(alloc, gauge, &[&RESPONSE], &[])?;
    let answer = poller.turn(&mut wire);
    drop((wire, poller));
    Ok(answer)
}

#[test]
fn registers_are_read_in_the_order_of_the_map(rt: HostRuntime) -> Result<(), Fail> {
    let mut checks = Checks::new(&rt);
    let answer = answer_of(rt.alloc(), LONG_GAUGE)?;
    checks.same(answer, Polled::Value(0, shared(READING)));
    Ok(checks.end()?)
}

// The gauge with this validity bit.
fn with_bit(offset: u8, bit: u8) -> GaugeMap
    requires offset { offset < 3 }
    requires bit { bit < 16 }
    ensures { IsTrue (is_gauge_map result) }
{
    GaugeMap {
        valid: Some(Valid { offset, bit }),
        ..LONG_GAUGE
    }
}

#[test]
fn a_bit_says_whether_a_reading_is_valid(rt: HostRuntime) -> Result<(), Fail> {
    let mut checks = Checks::new(&rt);
    let cases = [
        ("bit 2 of register 2", 2, 2, false),
        ("bit 0 of register 1", 1, 0, false),
        ("bit 0 of register 0", 0, 0, true),
        ("bit 0 of register 2", 2, 0, true),
        ("bit 15 of register 2", 2, 15, true),
        ("bit 15 of register 0", 0, 15, false),
    ];
    for (name, offset, bit, valid) in cases {
        if offset >= 3 || bit >= 16 {
            return Err("no such bit".into());
        }
        let want = if valid {
            Polled::Value(0, READING)
        } else {
            Polled::NotValid(0)
        };
        checks.same_at(name, answer_of(rt.alloc(), with_bit(offset, bit))?, want);
    }
    Ok(checks.end()?)
}

#[test]
fn a_reading_without_a_validity_bit_is_valid(rt: HostRuntime) -> Result<(), Fail> {
    let mut checks = Checks::new(&rt);
    let gauge = GaugeMap {
        valid: None,
        ..LONG_GAUGE
    };
    checks.same(answer_of(rt.alloc(), gauge)?, Polled::Value(0, READING));
    Ok(checks.end()?)
}
