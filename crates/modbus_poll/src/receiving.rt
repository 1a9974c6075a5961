//! Receiving a response.

ghost use Rattle.std.specs.Prelude.{◌≡◌, ◌+◌, ◌≤◌, length, OnOk};
ghost use Rattle.farm_base.specs.Counts.{Counts};
ghost use Rattle.modbus_frame.specs.Requests.{IsExpect};
ghost use Rattle.modbus_poll.specs.Pieces.{ReceivesPiece, ReceivesResponse};

use farm_ports::{Failed, Link};
use modbus_frame::{Expect, Frame, read_response};

// The most bytes of a response are 259.
const ROOM: usize = 260;

/// Receives a response up to where it is decided what it is, and never more bytes than it still needs.
pub(crate) fn receive<L: Link>(link: &mut L, expect: &Expect) -> Result<Frame, Failed>
    requires expect { IsExpect expect.now }
    ensures calls { ReceivesResponse (L.calls link.old) (L.calls link.new) expect.now result }
    ensures counts { Counts (L.faults link.old) (L.faults link.new) result }
{
    let mut buffer = [0; ROOM];
    let mut len = 0;
    loop {
        match read_response(&buffer[..len], expect) {
            Frame::Need(needed) => len += receive_piece(link, &mut buffer, len, needed)?,
            frame => return Ok(frame),
        }
    }
}

// Receives a piece of at most this many bytes into the buffer at an offset, and says how many came.
fn receive_piece<L: Link>(
    link: &mut L,
    buffer: &mut [u8],
    offset: usize,
    most: usize,
) -> Result<usize, Failed>
    requires some { 1 ≤ most }
    requires room { offset + most ≤ length buffer.old }
    ensures piece { ReceivesPiece (L.calls link.old) (L.calls link.new) buffer.old buffer.new offset most result }
    ensures room { length buffer.new ≡ length buffer.old }
    ensures counts { Counts (L.faults link.old) (L.faults link.new) result }
{
    link.recv(&mut buffer[offset..offset + most])
}
