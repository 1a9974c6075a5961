//! The rules of a desk on a disk whose calls fail, in plain words: what is answered, which entries there are, whether the last one is in
//! doubt, and how many a crash leaves.
//!
//! It keeps a list of entries and counts calls. It knows nothing of bytes and of the desk's code.

use farm_fixed::Amount;
use farm_history::{Ask, Command, Entry, Query, Reply, Rule};
use std::alloc::AllocError;

// What the two tanks of the small site hold, which no command here changes.
const FIRST_TANK: Amount = Amount {
    litres: 700,
    kg: 600,
};

const SECOND_TANK: Amount = Amount { litres: 50, kg: 40 };

const BOTH_TANKS: Amount = Amount {
    litres: 750,
    kg: 640,
};

// A length, a write and a sync of the header, of its first gate, and of its own gate.
const CALLS_OF_MAKING: u64 = 7;

const MOMENTS_OF_MAKING: u64 = 12;

/// What the rules say of a desk so far.
#[derive(Drop)]
pub struct Rules {
    /// The calls of the disk that fail, by their numbers.
    fails: Vec<u64>,
    /// How many calls the disk has had.
    calls: u64,
    /// How many of them failed.
    faults: u64,
    /// The moment of the disk.
    moment: u64,
    /// The entries, the last one maybe in doubt.
    pub(crate) entries: Vec<Entry>,
    /// Whether it is.
    pub(crate) doubt: bool,
    /// Whether the gate of an entry in doubt was written, and only its sync failed.
    written: bool,
}

/// What the rules say of one request: its reply, or nothing if the disk fails.
pub type Said = Option<Reply>;

/// What the rules say of a further command.
enum Judged {
    /// It writes nothing.
    Answered(Reply),
    /// It is entered.
    Accepted,
}

impl Rules {
    /// A desk that was just made on a disk whose calls of these numbers fail, none of them one of the making.
    pub(crate) fn new(fails: Vec<u64>, entries: Vec<Entry>) -> Rules {
        Rules {
            fails,
            calls: CALLS_OF_MAKING,
            faults: 0,
            moment: MOMENTS_OF_MAKING,
            entries,
            doubt: false,
            written: false,
        }
    }

    /// The moment of the disk, and its faults.
    pub(crate) fn stand(&self) -> (u64, u64) {
        (self.moment, self.faults)
    }

    /// How many entries a crash leaves now if nothing is left of what isn't synced, and if something is.
    pub(crate) fn left(&self) -> (usize, usize) {
        let all = self.entries.len();
        if self.doubt {
            (all.saturating_sub(1), all)
        } else {
            (all, all)
        }
    }

    // One call of the disk: whether it succeeds.
    fn call(&mut self) -> bool {
        self.calls = self.calls.saturating_add(1);
        if self.fails.contains(&self.calls) {
            self.faults = self.faults.saturating_add(1);
            return false;
        }
        true
    }

    // A write or a sync, which takes two moments.
    fn writes(&mut self) -> bool {
        self.moment = self.moment.saturating_add(2);
        self.call()
    }

    // The write and the sync of the body of a further entry.
    fn puts_body(&mut self) -> bool {
        self.writes() && self.writes()
    }

    // The write and the sync of the gate of the last entry, which is in doubt until they are over.
    fn opens_gate(&mut self) -> bool {
        if !self.writes() {
            return false;
        }
        self.written = true;
        if !self.writes() {
            return false;
        }
        self.doubt = false;
        true
    }

    /// Whether nothing is in doubt, after the gate of an entry in doubt was tried once more.
    pub(crate) fn settles(&mut self) -> bool {
        !self.doubt || self.opens_gate()
    }

    // How many entries there are.
    fn count(&self) -> u32 {
        u32::try_from(self.entries.len()).unwrap_or(u32::MAX)
    }

    // The place of the last reading or sample of a tank, 0 for none.
    fn last_of(&self, tank: u16, sampled: bool) -> u32 {
        let mut last = 0;
        let mut place: u32 = 0;
        for entry in &self.entries {
            place = place.saturating_add(1);
            let is_one = match entry.cmd {
                Command::Sample { tank: of, .. } => sampled && of == tank,
                Command::Gauge { tank: of, .. } => !sampled && of == tank,
                _ => false,
            };
            if is_one {
                last = place;
            }
        }
        last
    }

    // The book of a tank.
    fn stock(&self, tank: u16) -> Reply {
        let amount = match tank {
            1 => FIRST_TANK,
            2 => SECOND_TANK,
            _ => return Reply::Refused(Rule::UnknownTank),
        };
        Reply::Stock {
            tank,
            amount,
            reading: self.last_of(tank, false),
            sample: self.last_of(tank, true),
        }
    }

    // What is looked up.
    fn look(&self, query: &Query) -> Reply {
        match query {
            Query::Ticket(_) => Reply::Refused(Rule::UnknownTicket),
            Query::Stock(tank) => self.stock(*tank),
            Query::Total => Reply::Total {
                entries: self.count(),
                amount: BOTH_TANKS,
            },
        }
    }

    // The entry of a key, and its place.
    fn entry_of(&self, account: u32, key: u64) -> Option<(u32, Command)> {
        let mut place: u32 = 0;
        for entry in &self.entries {
            place = place.saturating_add(1);
            if entry.account == account && entry.key == key {
                return Some((place, entry.cmd));
            }
        }
        None
    }

    // What a command comes to.
    fn judge(&self, account: u32, key: u64, cmd: Command) -> Judged {
        if let Some((place, before)) = self.entry_of(account, key) {
            return Judged::Answered(if before == cmd {
                Reply::Placed(place)
            } else {
                Reply::Refused(Rule::KeyReused(place))
            });
        }
        match cmd {
            Command::Sample { tank, .. } | Command::Gauge { tank, .. } if tank > 2 => {
                Judged::Answered(Reply::Refused(Rule::UnknownTank))
            }
            _ => Judged::Accepted,
        }
    }

    // Enters an entry.
    fn enter(&mut self, entry: Entry) -> Result<Said, AllocError> {
        if !self.puts_body() {
            return Ok(None);
        }
        self.entries.push(entry)?;
        self.doubt = true;
        self.written = false;
        let place = self.count();
        Ok(if self.opens_gate() {
            Some(Reply::Placed(place))
        } else {
            None
        })
    }

    // What a command is answered.
    fn answer_command(&mut self, entry: Entry) -> Result<Said, AllocError> {
        match self.judge(entry.account, entry.key, entry.cmd) {
            Judged::Answered(reply) => Ok(Some(reply)),
            Judged::Accepted => self.enter(entry),
        }
    }

    /// What a request of a caller is answered at a moment, which is never earlier than the last one.
    pub(crate) fn answer(&mut self, caller: u32, at: i64, ask: &Ask) -> Result<Said, AllocError> {
        if !self.settles() {
            return Ok(None);
        }
        match ask {
            Ask::Look(query) => Ok(Some(self.look(query))),
            Ask::Do { account, key, cmd } => self.answer_command(Entry {
                caller,
                account: *account,
                key: *key,
                at,
                cmd: *cmd,
            }),
        }
    }

    /// Whether a recovery of the disk finds the history: it syncs the disk and reads it once. Then an entry in doubt stands if its gate was
    /// written, and else it is gone.
    pub(crate) fn recover(&mut self) -> bool {
        if !self.writes() || !self.call() {
            return false;
        }
        if self.doubt && !self.written {
            self.entries.pop();
        }
        self.doubt = false;
        true
    }
}
