//! A line with one gauge, before its first poll, and its link.

ghost use Rattle.std.specs.Prelude.{◌≡◌, IfOk, IsTrue};
ghost use Rattle.gauge_maps.specs.Maps.{is_line_map};
ghost use Rattle.modbus_poll.specs.Polls.{fresh};

use farm_base::NoMemory;
use farm_ports::Wire;
use line_posts::GaugeLine;
use modbus_poll::{Field, GaugeMap, Gauges, Host, LineMap};
use std::alloc::Global;

// A field of one word in the unit of what it measures.
const PLAIN: Field = Field {
    offset: 0,
    words: 1,
    swapped: false,
    signed: false,
    mul: 1,
    div: 1,
};

// Two input registers of unit 17: the level in mm, and the temperature in 0.1 C.
const GAUGE: GaugeMap = GaugeMap {
    tank: 101,
    unit: 17,
    function: 4,
    start: 8,
    quantity: 2,
    level: PLAIN,
    temperature: Field {
        offset: 1,
        signed: true,
        mul: 10,
        ..PLAIN
    },
    water: None,
    ambient: None,
    ambient_fixed: 1_500,
    valid: None,
    deadband_mm: 1,
    deadband_centi: 5,
};

// The map of a line with the gauge.
fn map(alloc: Global) -> Result<LineMap, NoMemory>
    ensures map { IfOk result (λ map. IsTrue (is_line_map map)) }
{
    Ok(LineMap {
        host: Host::new(b"10.0.0.7".to_vec(alloc)?),
        port: 502,
        gauges: Gauges::new(vec![in alloc; GAUGE]?),
    })
}

/// A line with the gauge, before its first poll.
pub(crate) fn line(alloc: Global) -> Result<GaugeLine, NoMemory>
    ensures fresh { IfOk result (λ line. line ≡ fresh line.line) }
{
    GaugeLine::new(alloc, map(alloc)?)
}

/// A link with these responses, whose calls of these numbers fail.
pub(crate) fn wire(alloc: Global, responses: &[&[u8]], fails: &[u64]) -> Result<Wire, NoMemory> {
    let mut copies = Vec::new(alloc);
    for response in responses {
        copies.push(response.to_vec(alloc)?)?;
    }
    Wire::new(alloc, copies, fails.to_vec(alloc)?)
}
