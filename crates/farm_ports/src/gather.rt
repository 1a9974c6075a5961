//! A sink in memory.

ghost use Rattle.std.specs.Prelude.{◌≡◌, ◌⊎◌, ◌+◌, ◌<◌, ◌≤◌, [], length, IfOk, OnOk, IsOk, IsErr, Some, None};
ghost use Rattle.farm_base.specs.Counts.{Counts};
ghost use Rattle.farm_ports.specs.Ports.{PutGives};

use crate::failing_calls::FailingCalls;
use crate::{Failed, Port, Sink};
use farm_base::NoMemory;
use std::alloc::Global;
use std::marker::Model;

/// A sink that keeps bytes in memory, and fails the puts that it has in a list.
///
/// A put takes the whole piece. One that finds no memory fails, and counts as a fault.
#[derive(Drop)]
pub struct Gather {
    bytes: Vec<u8>,
    calls: FailingCalls,
}

impl Model for Gather {
    ghost use Rattle.std.specs.Prelude.{vec_capacity};
    ghost use Rattle.farm_ports.specs.Objects.{GatherState};

    ghost Value = { GatherState };

    ghost view = { λ gather. record { bytes = gather.bytes.items; room = vec_capacity gather.bytes; calls = gather.calls } };
}

impl Gather {
    ghost use Rattle.farm_ports.specs.Objects.{no_calls};

    /// A sink without a byte, whose puts of these numbers, counted from 1, fail.
    pub fn new(alloc: Global, fails: Vec<u64>) -> Result<Self, NoMemory>
        ensures made { IsOk result }
        ensures known { IfOk result (λ gather. ⟦<Gather as Port>⟧.held gather ≡ Some []) }
        ensures faults { IfOk result (λ gather. ⟦<Gather as Port>⟧.faults gather ≡ 0) }
        ensures calls { IfOk result (λ gather. gather.calls ≡ no_calls fails.items) }
    {
        Ok(Gather {
            bytes: Vec::new(alloc),
            calls: FailingCalls::new(fails),
        })
    }

    /// The bytes that it holds.
    pub fn bytes(&self) -> &[u8]
        ensures known { ⟦<Gather as Port>⟧.held self.now ≡ Some result.now }
    {
        &self.bytes
    }

    /// How many of its puts failed; the count stands still at the last `u64`.
    pub fn faults(&self) -> u64
        ensures faults { result ≡ ⟦<Gather as Port>⟧.faults self.now }
    {
        self.calls.faults()
    }
}

impl Port for Gather {
    ghost stream = { λ _. None };

    ghost held = { λ gather. Some gather.bytes };

    ghost faults = { λ gather. gather.calls.faults };
}

impl Sink for Gather {
    ghost use Rattle.farm_ports.specs.Objects.{CountsCall, FailsNext};

    fn put(&mut self, bytes: &[u8]) -> Result<usize, Failed>
        ensures bytes { PutGives (⟦<Gather as Port>⟧.held self.old) (⟦<Gather as Port>⟧.held self.new) bytes.now result }
        ensures stream { ⟦<Gather as Port>⟧.stream self.new ≡ ⟦<Gather as Port>⟧.stream self.old }
        ensures counts { Counts (⟦<Gather as Port>⟧.faults self.old) (⟦<Gather as Port>⟧.faults self.new) result }

        // A listed put fails; any other takes the whole piece, or finds no memory.
        ensures listed { FailsNext self.old.calls → IsErr result }
        ensures room { IsErr result → FailsNext self.old.calls ⊎ (self.old.room < length self.old.bytes + length bytes.now) }
        ensures whole { IfOk result (λ count. count ≡ length bytes.now) }
        ensures counted { CountsCall self.old.calls self.new.calls }
        ensures grows { self.old.room ≤ self.new.room }
    {
        self.calls.begin()?;
        if self.bytes.extend_from_slice(bytes).is_err() {
            return Err(self.calls.fault());
        }
        Ok(bytes.len())
    }
}
