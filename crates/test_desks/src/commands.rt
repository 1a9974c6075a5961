//! What callers ask of a desk of the row site, and what they are answered if the disk doesn't fail.

ghost use Rattle.farm_history.specs.Commands.{IsWellFormedCommand};
ghost use Rattle.farm_history.specs.Desk.{IsWellFormedAsk};

use farm_fixed::Amount;
use farm_history::{Ask, Command, Gauged, Plan, Query, Reply, Rule};

/// The moment of the clock.
pub const NOW: i64 = 1_700_000_000;

/// How many entries are before the eighth.
pub const BEFORE: u8 = 7;

/// The eighth command of the account 1, which is accepted.
#[derive(Clone, Copy, Debug, PartialEq, Eq)]
pub enum Eighth {
    /// A gauge's reading.
    Gauge,
    /// The closing of the transfer.
    Closing,
}

/// What is asked.
#[derive(Clone, Copy, Debug, PartialEq, Eq)]
pub enum Asked {
    /// One of the seven commands before the eighth.
    Before(u8),
    /// The eighth command, by its caller.
    Eighth,
    /// The same for the same account, by another caller.
    Repeat,
    /// A look-up by that other caller.
    Total,
    /// A command of its own account that is refused.
    Refused,
    /// One that is accepted.
    Accepted,
    /// What the other caller asks in a row that is gone through for several such: a look-up, if nothing else is said.
    Met,
}

// A sample of a tank.
fn sample(tank: u16) -> Command
    ensures { IsWellFormedCommand result }
{
    Command::Sample {
        tank,
        density: 8_500,
        sw: 0,
    }
}

// A gauge's reading of a tank.
fn reading(tank: u16, level: i64, temperature: i64) -> Command
    ensures { IsWellFormedCommand result }
{
    Command::Gauge {
        tank,
        level,
        water: 0,
        temperature,
        ambient: 1_500,
    }
}

// A transfer from tank 101 to tank 102, opened on the readings at 2 and 4 and the samples at 1 and 3.
const TRANSFER: Command = Command::Opening(Plan::Transfer {
    from: 101,
    to: 102,
    from_gauged: Gauged {
        reading: 2,
        sample: 1,
    },
    to_gauged: Gauged {
        reading: 4,
        sample: 3,
    },
});

// Its closing, on the readings at 6 and 7.
const CLOSING: Command = Command::Closing {
    movement: 5,
    first: Gauged {
        reading: 6,
        sample: 1,
    },
    second: Some(Gauged {
        reading: 7,
        sample: 3,
    }),
};

// The commands before the eighth, by their places less one.
fn command_before(index: u8) -> Command
    ensures { IsWellFormedCommand result }
{
    match index {
        0 => sample(101),
        1 => reading(101, 9_000, 2_500),
        2 => sample(102),
        3 => reading(102, 5_000, 1_500),
        4 => TRANSFER,
        5 => reading(101, 8_500, 2_500),
        _ => reading(102, 5_495, 1_500),
    }
}

// The eighth command.
fn eighth_command(eighth: Eighth) -> Command
    ensures { IsWellFormedCommand result }
{
    match eighth {
        Eighth::Gauge => reading(101, 8_000, 2_500),
        Eighth::Closing => CLOSING,
    }
}

// A command for an account under a key.
fn doing(account: u32, key: u64, cmd: Command) -> Ask
    requires { IsWellFormedCommand cmd }
    ensures { IsWellFormedAsk result }
{
    Ask::Do { account, key, cmd }
}

/// The number of the caller, and what it asks.
pub(crate) fn ask_of(eighth: Eighth, asked: Asked) -> (u32, Ask)
    ensures well_formed { IsWellFormedAsk result.1 }
{
    match asked {
        Asked::Before(index) => (0, doing(1, u64::from(index), command_before(index))),
        Asked::Eighth => (0, doing(1, 8, eighth_command(eighth))),
        Asked::Repeat => (1, doing(1, 8, eighth_command(eighth))),
        Asked::Total | Asked::Met => (1, Ask::Look(Query::Total)),
        Asked::Refused => (1, doing(2, 1, sample(999))),
        Asked::Accepted => (1, doing(2, 2, sample(102))),
    }
}

// What the terminal holds after the eighth command: of its 13,000,000 litres and 11,050,000 kg the transfer takes 495,859 and 421,481 out
// of one tank, and brings 495,000 and 420,750 into the other.
fn total_after(eighth: Eighth) -> Amount {
    match eighth {
        Eighth::Gauge => Amount {
            litres: 13_000_000,
            kg: 11_050_000,
        },
        Eighth::Closing => Amount {
            litres: 12_999_141,
            kg: 11_049_269,
        },
    }
}

/// The reply once the eighth entry stands, whose own reply is given.
pub(crate) fn reply_to(eighth: Eighth, asked: Asked, own: Reply) -> Reply {
    match asked {
        Asked::Before(index) => Reply::Placed(u32::from(index).saturating_add(1)),
        Asked::Eighth | Asked::Repeat => own,
        Asked::Total | Asked::Met => Reply::Total {
            entries: 8,
            amount: total_after(eighth),
        },
        Asked::Refused => Reply::Refused(Rule::UnknownTank),
        Asked::Accepted => Reply::Placed(9),
    }
}
