//! Which calls of an object in memory are to fail, and how many have.

ghost use Rattle.std.specs.Prelude.{◌≡◌, ◌↔◌, ◌≤◌, IsErr, OnErr, OnOk};
ghost use Rattle.farm_base.specs.Counts.{CountsOnce, Rose, raised};
ghost use Rattle.farm_ports.specs.Objects.{CountsCall, FailsNext, no_calls};

use crate::Failed;
use std::marker::Model;

/// The calls that an object in memory has counted and those that are to fail, by their numbers from 1.
#[derive(Drop)]
pub struct FailingCalls {
    made: u64,
    failing: Vec<u64>,
    faults: u64,
}

impl Model for FailingCalls {
    ghost use Rattle.farm_ports.specs.Objects.{Calls};

    ghost Value = { Calls };

    ghost view = { λ calls. record { made = calls.made; failing = calls.failing.items; faults = calls.faults } };
}

impl FailingCalls {
    /// No call yet. Takes no memory.
    pub fn new(failing: Vec<u64>) -> Self
        ensures no_calls { result ≡ no_calls failing.items }
    {
        FailingCalls {
            made: 0,
            failing,
            faults: 0,
        }
    }

    /// Counts a call, and fails it where its number is listed.
    pub fn begin(&mut self) -> Result<(), Failed>
        ensures listed { IsErr result ↔ FailsNext self.old }
        ensures counts { CountsOnce self.old.faults self.new.faults result }
        ensures counted { CountsCall self.old self.new }
    {
        self.made = self.made.saturating_add(1);
        if self.failing.contains(&self.made) {
            return Err(Failed::counted_in(&mut self.faults));
        }
        Ok(())
    }

    /// Counts a fault, and answers what the call that met it returns.
    pub fn fault(&mut self) -> Failed
        ensures rose { Rose self.old.faults self.new.faults }
        ensures never_falls { self.old.faults ≤ self.new.faults }
        ensures once { self.new.faults ≡ raised 1 self.old.faults }
        ensures made { self.new.made ≡ self.old.made }
        ensures failing { self.new.failing ≡ self.old.failing }
    {
        Failed::counted_in(&mut self.faults)
    }

    /// How many calls failed; the count stands still at the last `u64`.
    pub fn faults(&self) -> u64
        ensures faults { result ≡ self.now.faults }
    {
        self.faults
    }
}
