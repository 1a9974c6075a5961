//! The job that asks a desk.

ghost use Rattle.std.specs.Prelude.{◌≡◌, false};
ghost use Rattle.farm_history.specs.Desk.{IsWellFormedAsk};
ghost use Rattle.desk_turns.specs.Jobs.{DoesAsk};

use crate::looking::has_stop_past;
use farm_desk::{Answer, Desk};
use farm_disk::Disk;
use farm_history::Ask;
use farm_turn::Job;
use std::marker::Model;

/// A request of a caller, to be asked of a desk at its turn, at a number of the clock in seconds since 1970-01-01 00:00:00 UTC.
///
/// Once it is done it has the answer, how many entries the history then had, and whether a Stop was past those that the caller had looked at.
#[derive(Drop)]
pub struct AskJob<'a> {
    ask: &'a Ask,
    clock: i64,
    looked: usize,
    answer: Answer,
    stopped: bool,
}

impl<'a> Model for AskJob<'a> {
    ghost use Rattle.farm_history.specs.Desk.{IsWellFormedAsk};
    ghost use Rattle.desk_turns.specs.Jobs.{AskState};

    ghost Value = { AskState };

    ghost view = { λ job. record { ask = job.ask.now; clock = job.clock; looked = job.looked; answer = job.answer; stopped = job.stopped } };

    ghost invariant = { λ job. IsWellFormedAsk job.ask.now };
}

impl<'a> AskJob<'a> {
    /// A request of a caller that has looked at this many entries, not asked yet.
    pub fn new(ask: &'a Ask, clock: i64, looked: usize) -> Self
        requires well_formed { IsWellFormedAsk ask.now }
        ensures ask { result.ask ≡ ask.now }
        ensures clock { result.clock ≡ clock }
        ensures looked { result.looked ≡ looked }
        ensures not_asked { result.answer ≡ Answer.NoMemory }
        ensures not_stopped { result.stopped ≡ false }
    {
        AskJob {
            ask,
            clock,
            looked,
            answer: Answer::NoMemory,
            stopped: false,
        }
    }

    /// What the desk answered; out of memory before it was asked.
    pub fn answer(&self) -> Answer
        ensures answer { result ≡ self.now.answer }
    {
        self.answer
    }

    /// How many entries its caller has looked at.
    pub fn looked(&self) -> usize
        ensures looked { result ≡ self.now.looked }
    {
        self.looked
    }

    /// Whether a Stop was past the entries that its caller had looked at.
    pub fn stopped(&self) -> bool
        ensures stopped { result ≡ self.now.stopped }
    {
        self.stopped
    }
}

impl<'a, D: Disk, const LIMIT: usize> Job<Desk<D, LIMIT>> for AskJob<'a> {
    ghost does = { DoesAsk LIMIT };

    fn run(&mut self, caller: u32, desk: &mut Desk<D, LIMIT>) {
        // Before it is asked, too, the desk continues what it was made with, and its count of faults fits a u64.
        let _ = desk.failed();
        self.answer = desk.ask(caller, self.clock, self.ask);
        let entries = desk.book().entries();
        self.stopped = has_stop_past(self.looked, entries);
        self.looked = entries.len();
    }
}
