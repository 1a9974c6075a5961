//! A log that many callers append to, and the jobs on it.

ghost use Rattle.std.specs.Prelude.{◌≡◌, ◌+◌, length};

use farm_turn::{Chronicle, Job};

/// Who appended, in order.
#[derive(Drop)]
pub struct Log {
    callers: Vec<u32>,
}

impl Log {
    /// A log of these entries.
    pub fn of(callers: Vec<u32>) -> Log {
        Log { callers }
    }

    /// The entries.
    pub fn callers(&self) -> &[u32] {
        self.callers.as_slice()
    }
}

impl Chronicle for Log {
    type Entry = u32;

    type Root = ();

    ghost past = { λ log. log.callers.items };

    ghost caller_of = { λ entry. entry };

    ghost root = { λ _. tt };

    ghost tally = { λ _. 0 };

    ghost mark = { λ _. 0 };

    fn len(&self) -> u64 {
        self.callers.len() as u64
    }
}

// The number that xorshift reaches after these rounds. It is never 0.
fn found_after(rounds: u32) -> u64 {
    let mut number: u64 = 88_172_645_463_325_252;
    for _ in 0..rounds {
        number ^= number << 13;
        number ^= number >> 7;
        number ^= number << 17;
    }
    number
}

/// Appends the caller after `rounds` rounds of work, unless memory runs out, and counts what it appended.
#[derive(Drop)]
pub struct Append {
    pub rounds: u32,
    pub appended: u64,
}

impl Job<Log> for Append {
    ghost does = { λ job caller before job_after after. job_after.appended + length before.callers.items ≡ job.appended + length after.callers.items };

    fn run(&mut self, caller: u32, log: &mut Log) {
        if found_after(self.rounds) != 0
            && self.appended < u64::MAX
            && log.callers.push(caller).is_ok()
        {
            self.appended += 1;
        }
    }
}

/// Reads how long the log is.
#[derive(Drop)]
pub struct Look {
    pub len: u64,
}

impl Job<Log> for Look {
    ghost does = { λ job caller before job_after after. (job_after.len ≡ length before.callers.items) × (after ≡ before) };

    fn run(&mut self, _caller: u32, log: &mut Log) {
        self.len = log.len();
    }
}
