//! Numbers and requests that follow from a seed.

ghost use Rattle.farm_history.specs.Commands.{IsWellFormedCommand};
ghost use Rattle.farm_history.specs.Desk.{IsWellFormedAsk};

use farm_history::{Ask, Command, Query};
use std::alloc::{AllocError, Global};

/// Numbers that follow from a seed, one after another.
#[derive(Clone, Copy)]
pub struct Draw {
    /// The last one, at first the seed.
    pub number: u64,
}

// The last call that is drawn to fail, and the one before the first.
const LAST_CALL: u64 = 130;

const CALLS_OF_MAKING: u64 = 7;

impl Draw {
    /// The next one, below a number that isn't 0.
    pub(crate) fn below(&mut self, end: u64) -> u64 {
        self.number = self
            .number
            .wrapping_mul(6_364_136_223_846_793_005)
            .wrapping_add(1_442_695_040_888_963_407);
        (self.number >> 33).checked_rem(end).unwrap_or(0)
    }

    /// Up to six calls of the disk that fail, after those of the making.
    pub(crate) fn fails(&mut self, alloc: Global) -> Result<Vec<u64>, AllocError> {
        let mut fails = Vec::new(alloc);
        for _ in 0..self.below(7) {
            let call = self.below(LAST_CALL).saturating_add(CALLS_OF_MAKING);
            fails.push(call.saturating_add(1))?;
        }
        Ok(fails)
    }
}

// The tank of a number; the site has none of the number 3.
fn tank_of(number: u64) -> u16 {
    match number % 7 {
        0 | 1 | 2 => 1,
        3 | 4 | 5 => 2,
        _ => 3,
    }
}

// The command that is asked first under a key.
fn command_of(key: u64) -> Command
    ensures { IsWellFormedCommand result }
{
    let tank = tank_of(key / 2);
    if key % 2 == 0 {
        Command::Sample {
            tank,
            density: 8_450,
            sw: 0,
        }
    } else {
        Command::Gauge {
            tank,
            level: (key % 10) as i64,
            water: 0,
            temperature: 1_500,
            ambient: 1_500,
        }
    }
}

// A command for the account 1.
fn doing(key: u64, cmd: Command) -> Ask
    requires { IsWellFormedCommand cmd }
    ensures { IsWellFormedAsk result }
{
    Ask::Do {
        account: 1,
        key,
        cmd,
    }
}

/// A Stop.
pub(crate) fn stop() -> Ask
    ensures { IsWellFormedAsk result }
{
    doing(1_000, Command::Stop)
}

/// A request: mostly a command under the next key, and else one under an earlier key, the same or another, or a look-up.
pub(crate) fn drawn(draw: &mut Draw, next: u64) -> Ask
    ensures { IsWellFormedAsk result }
{
    let key = draw.below(next.saturating_add(1));
    match draw.below(10) {
        0 => Ask::Look(Query::Total),
        1 => Ask::Look(Query::Stock(tank_of(key))),
        2 => doing(key, command_of(key)),
        3 => doing(key, command_of(key.saturating_add(1))),
        _ => doing(next, command_of(next)),
    }
}
