//! The ports: what a source, a sink and a port of both owe, and a call that failed.

ghost use Rattle.std.specs.Prelude.{◌≡◌, ◌≤◌, ℕ, List, OnOk, Option};
ghost use Rattle.farm_base.specs.Counts.{Counts, Rose, raised};
ghost use Rattle.farm_base.specs.Known.{Stream};
ghost use Rattle.farm_ports.specs.Ports.{PutGives, TakeGives};

use thiserror::Error;

/// A call on the outside failed, and the object counted the fault.
#[derive(Clone, Copy, Debug, PartialEq, Eq, Error)]
#[error("a port failed")]
pub struct Failed;

impl Failed {
    /// Counts a fault, and is what the call that met it answers. The count stands still at the last `u64`.
    pub fn counted_in(faults: &mut u64) -> Self
        ensures rose { Rose faults.old faults.new }
        ensures never_falls { faults.old ≤ faults.new }
        ensures once { faults.new ≡ raised 1 faults.old }
    {
        *faults = faults.saturating_add(1);
        Failed
    }
}

/// An object of the outside, by what is known of its bytes and how many faults it has counted.
pub trait Port {
    /// What was taken from it and what is left, where that is known; none for an object that is only a sink.
    ghost stream: { Self → Option Stream };

    /// The bytes that it holds, where they are known; none for an object that is only a source.
    ghost held: { Self → Option (List ℕ) };

    /// How many faults it has counted. The count stands still at the last `u64`.
    ghost faults: { Self → ℕ };
}

/// A source of bytes.
pub trait Source: Port {
    /// Takes bytes into the front of `into`, and says how many; 0 for a buffer that has room is the end.
    fn take(&mut self, into: &mut [u8]) -> Result<usize, Failed>
        ensures bytes { TakeGives (Self.stream self.old) (Self.stream self.new) into.new result }
        ensures held { Self.held self.new ≡ Self.held self.old }
        ensures counts { Counts (Self.faults self.old) (Self.faults self.new) result };
}

/// A sink for bytes.
pub trait Sink: Port {
    /// Takes bytes off the front of `bytes`, and says how many: at least one of a piece that has any.
    fn put(&mut self, bytes: &[u8]) -> Result<usize, Failed>
        ensures bytes { PutGives (Self.held self.old) (Self.held self.new) bytes.now result }
        ensures stream { Self.stream self.new ≡ Self.stream self.old }
        ensures counts { Counts (Self.faults self.old) (Self.faults self.new) result };
}
