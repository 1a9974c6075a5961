//! Links to devices that answer over a connection, as the gauges of a line do.

ghost use Rattle.std.specs.Prelude.{◌≡◌, ℕ, [], ◌∷◌, List, OnOk, Option};
ghost use Rattle.farm_base.specs.Counts.{Counts};
ghost use Rattle.farm_ports.specs.Links.{AddsCalls, CallsAddUp, Connects, NoCallAddsNone, Receives, Sends};
ghost use Rattle.farm_ports.specs.declared.links.LinkCall.{LinkCall};

use crate::Failed;
use farm_base::Items;

/// Bytes of a call. In a clause they are the list of them.
pub type Bytes = Items<u8>;

/// A call that a link took.
#[derive(Debug, Drop)]
pub enum LinkCall {
    /// A connect to a host and a port, and whether it failed.
    Connect {
        host: Bytes,
        port: u16,
        failed: bool,
    },
    /// A send of the bytes that it took, and whether it failed; one that failed has none.
    Sent {
        bytes: Bytes,
        failed: bool,
    },
    /// A receive of the bytes that it gave, and whether it failed; one that failed has none.
    Received {
        bytes: Bytes,
        failed: bool,
    },
    /// A pause.
    Paused,
}

/// A link to a device: one connection at a time, to a host and a port.
pub trait Link {
    /// The calls that it took, in their order, where they are known.
    ghost calls: { Self → Option (List LinkCall) };

    /// How many faults it has counted. The count stands still at the last `u64`.
    ghost faults: { Self → ℕ };

    /// Drops the connection before, and connects to a host, an address or a name, and a port.
    fn connect(&mut self, host: &[u8], port: u16) -> Result<(), Failed>
        ensures call { Connects (Self.calls self.old) (Self.calls self.new) host.now port result }
        ensures counts { Counts (Self.faults self.old) (Self.faults self.new) result };

    /// Sends bytes off the front of `bytes`, and says how many: at least one of a piece that has any.
    fn send(&mut self, bytes: &[u8]) -> Result<usize, Failed>
        ensures call { Sends (Self.calls self.old) (Self.calls self.new) bytes.now result }
        ensures counts { Counts (Self.faults self.old) (Self.faults self.new) result };

    /// Receives bytes into the front of `into`, and says how many: at least one for a buffer that has room.
    ///
    /// The end of what the device sends, and an answer that doesn't come in time, are faults.
    fn recv(&mut self, into: &mut [u8]) -> Result<usize, Failed>
        ensures call { Receives (Self.calls self.old) (Self.calls self.new) into.new result }
        ensures counts { Counts (Self.faults self.old) (Self.faults self.new) result };

    /// Lets one second pass.
    fn pause(&mut self)
        ensures call { AddsCalls (Self.calls self.old) (Self.calls self.new) (LinkCall.Paused ∷ []) }
        ensures faults { Self.faults self.new ≡ Self.faults self.old };
}

/// Does nothing: its contract is what follows for the calls of every link.
pub fn link_laws()
    ensures calls_add_up { CallsAddUp }
    ensures no_call { NoCallAddsNone }
{}
