//! Sending a request.

ghost use Rattle.std.specs.Prelude.{◌≡◌, OnOk};
ghost use Rattle.farm_base.specs.Counts.{Counts};
ghost use Rattle.modbus_poll.specs.Pieces.{SendsRequest};

use farm_ports::{Failed, Link};

/// Sends a request whole, or fails with a prefix of it sent.
pub(crate) fn send_whole<L: Link>(link: &mut L, request: &[u8]) -> Result<(), Failed>
    ensures calls { SendsRequest (L.calls link.old) (L.calls link.new) request.now result }
    ensures counts { Counts (L.faults link.old) (L.faults link.new) result }
{
    let mut done = 0;
    while done < request.len() {
        done += link.send(&request[done..])?;
    }
    Ok(())
}
