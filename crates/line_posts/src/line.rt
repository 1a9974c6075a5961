//! A gauge line that is polled.

ghost use Rattle.std.specs.Prelude.{◌≡◌, IfOk, IsTrue};
ghost use Rattle.gauge_maps.specs.Maps.{is_line_map};
ghost use Rattle.modbus_poll.specs.Polls.{fresh};

use farm_base::NoMemory;
use modbus_poll::{LineMap, Poller};
use std::alloc::Global;
use std::marker::Model;

/// A gauge line that is polled: its poller, and how many gauges it has.
///
/// Contracts see the poller.
#[derive(Debug, Drop)]
pub struct GaugeLine {
    pub(crate) poller: Poller,
    pub(crate) gauges: usize,
}

impl Model for GaugeLine {
    ghost use Rattle.std.specs.Prelude.{◌≡◌, ◌≤◌, length};
    ghost use Rattle.gauge_maps.specs.Limits.{most_gauges};
    ghost use Rattle.modbus_poll.specs.Polls.{PollerState};

    ghost Value = { PollerState };

    ghost view = { λ line. line.poller };

    ghost invariant = { λ line. (line.gauges ≡ length line.poller.line.gauges) × (line.gauges ≤ most_gauges) };
}

impl GaugeLine {
    /// A gauge line, before its first poll.
    pub fn new(alloc: Global, map: LineMap) -> Result<Self, NoMemory>
        requires map { IsTrue (is_line_map map) }
        ensures begins { IfOk result (λ line. line ≡ fresh map) }
    {
        let gauges = map.gauges.get().len();
        let poller = Poller::new(alloc, map)?;
        Ok(GaugeLine { poller, gauges })
    }
}
