//! A gauge, a line that has it alone, a poller of that line, and its link.

ghost use Rattle.std.specs.Prelude.{IfOk, IsTrue};
ghost use Rattle.gauge_maps.specs.Maps.{is_gauge_map, is_line_map};

use farm_base::NoMemory;
use farm_ports::Wire;
use modbus_poll::{Field, GaugeMap, Gauges, Host, LineMap, Poller, Valid};
use std::alloc::{AllocError, Global};

/// A field of one word in the unit of what it measures.
pub const PLAIN: Field = Field {
    offset: 0,
    words: 1,
    swapped: false,
    signed: false,
    mul: 1,
    div: 1,
};

/// Three input registers of unit 17: the level, the temperature in 0.1 C, and a word whose lowest bit says that they are valid.
pub const GAUGE: GaugeMap = GaugeMap {
    tank: 101,
    unit: 17,
    function: 4,
    start: 8,
    quantity: 3,
    level: PLAIN,
    temperature: Field {
        offset: 1,
        signed: true,
        mul: 10,
        ..PLAIN
    },
    water: None,
    ambient: None,
    ambient_fixed: 1_500,
    valid: Some(Valid { offset: 2, bit: 0 }),
    deadband_mm: 1,
    deadband_centi: 5,
};

/// A line with one gauge.
pub(crate) fn line(alloc: Global, gauge: GaugeMap) -> Result<LineMap, NoMemory>
    requires { IsTrue (is_gauge_map gauge) }
    ensures { IfOk result (λ line. IsTrue (is_line_map line)) }
{
    Ok(LineMap {
        host: Host::new(b"10.0.0.7".to_vec(alloc)?),
        port: 502,
        gauges: Gauges::new(vec![in alloc; gauge]?),
    })
}

// A poller of a line with one gauge.
fn poller(alloc: Global, gauge: GaugeMap) -> Result<Poller, NoMemory>
    requires { IsTrue (is_gauge_map gauge) }
{
    Poller::new(alloc, line(alloc, gauge)?)
}

// Appends copies of responses to a list.
fn add_copies(
    copies: &mut Vec<Vec<u8>>,
    alloc: Global,
    responses: &[&[u8]],
) -> Result<(), AllocError> {
    for response in responses {
        copies.push(response.to_vec(alloc)?)?;
    }
    Ok(())
}

// A link with these responses, whose calls of these numbers fail.
fn wire(alloc: Global, responses: &[&[u8]], fails: &[u64]) -> Result<Wire, NoMemory> {
    let fails = fails.to_vec(alloc)?;
    let mut copies = Vec::new(alloc);
    if let Err(fault) = add_copies(&mut copies, alloc, responses) {
        drop((copies, fails));
        return Err(fault.into());
    }
    Wire::new(alloc, copies, fails)
}

/// A poller of a line with one gauge, and a link with these responses, whose calls of these numbers fail.
pub(crate) fn linked(
    alloc: Global,
    gauge: GaugeMap,
    responses: &[&[u8]],
    fails: &[u64],
) -> Result<(Poller, Wire), NoMemory>
    requires { IsTrue (is_gauge_map gauge) }
{
    let wire = wire(alloc, responses, fails)?;
    match poller(alloc, gauge) {
        Ok(poller) => Ok((poller, wire)),
        Err(fault) => {
            drop(wire);
            Err(fault)
        }
    }
}
