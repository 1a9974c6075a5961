//! Clocks, and one in memory that stands still.

ghost use Rattle.std.specs.Prelude.{◌≡◌, ◌↔◌, ℤ, IfOk, IsOk};

use farm_base::NoMemory;
use std::alloc::Global;
use std::marker::Model;

/// A clock of the calendar.
pub trait Clock {
    /// It may give this number of seconds since 1970-01-01 00:00:00 UTC.
    ghost may_give: { Self → ℤ → Type 0 };

    /// The seconds since 1970-01-01 00:00:00 UTC, less than 0 before.
    fn now(&self) -> i64
        ensures given { Self.may_give self.now result };
}

/// A clock that always gives one moment. Contracts see the moment.
#[derive(Drop)]
pub struct Fixed {
    moment: i64,
}

impl Model for Fixed {
    ghost use Rattle.std.specs.Prelude.{ℤ};

    ghost Value = { ℤ };

    ghost view = { λ clock. clock.moment };
}

impl Fixed {
    /// A clock that gives this many seconds since 1970-01-01 00:00:00 UTC. It takes no memory.
    pub fn new(_: Global, moment: i64) -> Result<Self, NoMemory>
        ensures made { IsOk result }
        ensures moment { IfOk result (λ clock. clock ≡ moment) }

        // It may give this moment, and this one alone.
        ensures known { IfOk result (λ clock. (n : ℤ) → ⟦<Fixed as Clock>⟧.may_give clock n ↔ (n ≡ moment)) }
    {
        Ok(Fixed { moment })
    }
}

impl Clock for Fixed {
    ghost may_give = { λ clock moment. moment ≡ clock };

    fn now(&self) -> i64 {
        self.moment
    }
}
