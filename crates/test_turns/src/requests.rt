//! What the callers ask, and what they are answered.

ghost use Rattle.farm_history.specs.Commands.{IsWellFormedCommand};
ghost use Rattle.farm_history.specs.Desk.{IsWellFormedAsk};

use farm_desk::Answer;
use farm_fixed::Amount;
use farm_history::{Ask, Command, Query, Reply, Rule};

/// A request; a command is for account 1.
#[derive(Clone, Copy)]
pub enum Request {
    /// What a gauge reads of tank 101, a level, under a key.
    Gauge(u64, i64),
    /// A Stop, under a key.
    Stop(u64),
    /// A look at the book of tank 101.
    Stock,
    /// A look at what the terminal holds.
    Total,
}

/// What a request is answered with. No stock has changed.
#[derive(Clone, Copy)]
pub enum Expected {
    /// The place of a command.
    Placed(u32),
    /// A refusal by a rule.
    Refused(Rule),
    /// What tank 101 holds, with the place of its last reading.
    Held(u32),
    /// What the terminal holds, with the number of entries.
    Counted(u32),
    /// A fault of the disk.
    DiskFault,
}

// What tank 101 holds.
const STOCK: Amount = Amount {
    litres: 8_000_000,
    kg: 6_800_000,
};

// What the terminal holds.
const TOTAL: Amount = Amount {
    litres: 13_000_000,
    kg: 11_050_000,
};

// A gauge's reading of tank 101.
fn gauge(level: i64) -> Command
    ensures { IsWellFormedCommand result }
{
    Command::Gauge {
        tank: 101,
        level,
        water: 0,
        temperature: 1_500,
        ambient: 1_500,
    }
}

/// What the desk is asked.
pub(crate) fn ask_of(request: Request) -> Ask
    ensures { IsWellFormedAsk result }
{
    match request {
        Request::Gauge(key, level) => Ask::Do {
            account: 1,
            key,
            cmd: gauge(level),
        },
        Request::Stop(key) => Ask::Do {
            account: 1,
            key,
            cmd: Command::Stop,
        },
        Request::Stock => Ask::Look(Query::Stock(101)),
        Request::Total => Ask::Look(Query::Total),
    }
}

/// The answer that is expected.
pub(crate) fn answer_of(expected: Expected) -> Answer {
    match expected {
        Expected::Placed(place) => Answer::Done(Reply::Placed(place)),
        Expected::Refused(rule) => Answer::Done(Reply::Refused(rule)),
        Expected::Held(reading) => Answer::Done(Reply::Stock {
            tank: 101,
            amount: STOCK,
            reading,
            sample: 0,
        }),
        Expected::Counted(entries) => Answer::Done(Reply::Total {
            entries,
            amount: TOTAL,
        }),
        Expected::DiskFault => Answer::DiskFault,
    }
}
