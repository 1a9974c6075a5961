//! What a line asks of the desk.

ghost use Rattle.std.specs.Prelude.{◌≡◌, ◌+◌, ◌<◌};
ghost use Rattle.line_posts.specs.Limits.{keys_apart};
ghost use Rattle.line_posts.specs.Steps.{asks_of, counting};
ghost use Rattle.line_posts.specs.Submissions.{account_of, command_of, key_of};

use crate::limits::{KEYS_APART, LINE_ACCOUNTS};
use farm_history::{Ask, Command};
use modbus_poll::Raw;

/// Who submits: the line of a number, at a desk that was recovered with a number of entries, after a number of submissions.
#[derive(Drop)]
pub(crate) struct Submitter {
    pub line: u16,
    pub recovered: u32,
    pub count: u32,
}

impl Submitter {
    /// What is asked to submit a reading, under the next key.
    pub(crate) fn next(&mut self, raw: &Raw) -> Ask
        requires room { self.old.count + 1 < keys_apart }
        ensures asks { result ≡ asks_of self.old (self.old.count + 1) raw.now }
        ensures counted { self.new ≡ counting self.old 1 }
    {
        self.count += 1;
        Ask::Do {
            account: account_of(self.line),
            key: key_of(self.recovered, self.count),
            cmd: command_of(raw),
        }
    }
}

// The account of a line.
fn account_of(line: u16) -> u32
    ensures account { result ≡ account_of line }
{
    LINE_ACCOUNTS + u32::from(line)
}

// The key of a submission, by its number.
fn key_of(recovered: u32, number: u32) -> u64
    ensures key { result ≡ key_of recovered number }
{
    u64::from(recovered) * KEYS_APART + u64::from(number)
}

// The command that a reading is submitted as.
fn command_of(raw: &Raw) -> Command
    ensures command { result ≡ command_of raw.now }
{
    Command::Gauge {
        tank: raw.tank,
        level: raw.level,
        water: raw.water,
        temperature: raw.temperature,
        ambient: raw.ambient,
    }
}
