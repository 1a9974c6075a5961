//! Asking a gauge.

ghost use Rattle.std.specs.Prelude.{◌≡◌, IsTrue, OnOk};
ghost use Rattle.farm_base.specs.Counts.{Counts};
ghost use Rattle.modbus_frame.specs.Requests.{IsExpect};
ghost use Rattle.gauge_maps.specs.Maps.{is_gauge_map};
ghost use Rattle.modbus_poll.specs.Pieces.{Exchanges};
ghost use Rattle.modbus_poll.specs.Polls.{expect_of};

use crate::GaugeMap;
use crate::receiving::receive;
use crate::sending::send_whole;
use farm_ports::{Failed, Link};
use modbus_frame::{Expect, Frame, write_request};

/// Sends a request and receives its response.
pub(crate) fn exchange<L: Link>(link: &mut L, expect: &Expect) -> Result<Frame, Failed>
    requires expect { IsExpect expect.now }
    ensures calls { Exchanges (L.calls link.old) (L.calls link.new) expect.now result }
    ensures counts { Counts (L.faults link.old) (L.faults link.new) result }
{
    send_whole(link, &write_request(expect))?;
    receive(link, expect)
}

/// What is asked of a gauge in a transaction.
pub(crate) fn expect_of(gauge: &GaugeMap, transaction: u16) -> Expect
    requires map { IsTrue (is_gauge_map gauge.now) }
    ensures value { result ≡ expect_of gauge.now transaction }
    ensures expect { IsExpect result }
{
    Expect {
        transaction,
        unit: gauge.unit,
        function: gauge.function,
        start: gauge.start,
        quantity: gauge.quantity,
    }
}
