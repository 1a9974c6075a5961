//! A desk that is open: it answers requests by its book and its journal, and hands back its disk at the end.

ghost use Rattle.std.specs.Prelude.{◌≡◌, ◌≢◌, ◌+◌, ◌≤◌, false, true};
ghost use Rattle.farm_base.specs.Counts.{CountsOnceIf, raised};
ghost use Rattle.farm_disk.specs.Runs.{EachNow, Extends, MovesOn};
ghost use Rattle.farm_history.specs.Desk.{IsWellFormedAsk, desk_answer};
ghost use Rattle.farm_history.specs.History.{last_place};
ghost use Rattle.farm_history.specs.declared.limits.TheConstants.{MOST_LIMIT};
ghost use Rattle.journaled_book.specs.Replies.{IsAnswered};
ghost use Rattle.farm_desk.specs.Asking.{KeepsAcknowledged, KeepsFront};
ghost use Rattle.journaled_book.specs.Histories.{RecoversFront, RecoversNow, certain};
ghost use Rattle.journaled_book.specs.Moments.{EachFrom};
ghost use Rattle.journaled_book.specs.Records.{AreRecords};
ghost use Rattle.farm_desk.specs.States.{IsDurable, IsJustMade, found_of};

use crate::{Answer, Opened};
use farm_book::Book;
use farm_disk::Disk;
use farm_history::Ask;
use farm_journal::Journal;
use journaled_book::{Records, answer_of};
use std::marker::Model;
use std::snapshot::Snapshot;

/// A custody desk on a disk: a book of at most `LIMIT` entries, and Stops beyond them, and the journal that keeps it.
///
/// Whatever a crash leaves on the disk, a desk that is recovered from it has a prefix of this desk's entries, with each that was answered
/// `Done`.
#[derive(Drop)]
pub struct Desk<D: Disk, const LIMIT: usize> {
    records: Records<D, LIMIT>,
    opened: Opened,
    failed: u64,
    // Its disk as the desk was made, for clauses alone.
    found: Snapshot<D>,
}

impl<D: Disk, const LIMIT: usize> Model for Desk<D, LIMIT> {
    ghost use Rattle.farm_desk.specs.States.{DeskState, IsDesk};

    ghost Value = { DeskState D };

    ghost view = { λ desk. record { disk = desk.records.journal.disk; history = desk.records.book.history; doubt = desk.records.doubt; failed = desk.failed; opened = desk.opened; found = desk.found.value } };

    ghost invariant = { λ desk. IsDesk D.trace D.moment D.faults LIMIT
        (record { disk = desk.records.journal.disk; history = desk.records.book.history; doubt = desk.records.doubt; failed = desk.failed; opened = desk.opened; found = desk.found.value })
        desk.records.journal };
}

impl<D: Disk, const LIMIT: usize> Desk<D, LIMIT> {
    // The desk of a book and its journal, in which nothing is in doubt.
    pub(crate) fn of_records(journal: Journal<D>, book: Book<LIMIT>, bytes: Vec<u8>) -> Self
        requires limit { LIMIT ≤ MOST_LIMIT }
        requires kept { AreRecords D.trace LIMIT false book.history journal }
        ensures history { result.history ≡ book.entry.history }
        ensures disk { result.disk ≡ journal.disk }
        ensures new { IsJustMade D.moment D.faults result (last_place book.entry.history) }
        ensures durable { IsDurable D.trace D.moment D.faults LIMIT result }
    {
        let stand = journal.stand();
        let found = Snapshot::of(journal.disk());
        let opened = Opened {
            entries: book.entries().len() as u32,
            moment: stand.moment,
            faults: stand.faults,
        };
        Desk {
            records: Records {
                journal,
                book,
                doubt: false,
                bytes,
            },
            opened,
            failed: 0,
            found,
        }
    }

    /// Answers one request of a caller at a number of the clock, in seconds since 1970-01-01 00:00:00 UTC.
    ///
    /// It first opens the gate of an entry in doubt. A command that is accepted is then put into the journal, entered in the book, and its
    /// gate is opened. A look-up, a refused command and a repeat make no call on the disk if nothing is in doubt.
    pub fn ask(&mut self, caller: u32, now: i64, ask: &Ask) -> Answer
        requires well_formed { IsWellFormedAsk ask.now }
        ensures answered { IsAnswered self.old.history self.new.history self.new.doubt (desk_answer LIMIT self.old.history caller now ask.now) result }
        ensures durable { IsDurable D.trace D.moment D.faults LIMIT self.new }
        ensures since_call { KeepsFront D.trace LIMIT self.old self.new.disk self.new.history }
        ensures acknowledged { KeepsAcknowledged D.trace LIMIT self.old self.new.disk }
        ensures certain { certain self.old.doubt self.old.history ≤ certain self.new.doubt self.new.history }
        ensures untouched { self.old.doubt ≡ false →
            (desk_answer LIMIT self.old.history caller now ask.now).history ≡ self.old.history → self.new.disk ≡ self.old.disk }

        // Memory is taken before the first byte is written.
        ensures unwritten { self.old.doubt ≡ false → result ≡ Answer.NoMemory → self.new.disk ≡ self.old.disk }

        // Nothing is in doubt where memory ran out, and an entry comes into doubt only as it is entered.
        ensures sure { result ≡ Answer.NoMemory → self.new.doubt ≡ false }
        ensures stays_sure { self.old.doubt ≡ false → self.new.history ≡ self.old.history → self.new.doubt ≡ false }
        ensures moves { MovesOn (D.trace self.old.disk) (D.trace self.new.disk) (D.moment self.old.disk) (D.moment self.new.disk) }
        ensures counts { CountsOnceIf (result ≡ Answer.DiskFault) (D.faults self.old.disk) (D.faults self.new.disk) }
        ensures failed { result ≡ Answer.DiskFault → self.new.failed ≡ raised 1 self.old.failed }
        ensures not_failed { result ≢ Answer.DiskFault → self.new.failed ≡ self.old.failed }
        ensures opened { self.new.opened ≡ self.old.opened }
        ensures found { found_of self.new ≡ found_of self.old }
    {
        let answer = answer_of(self.records.answer(caller, now, ask));
        self.failed = self.failed.saturating_add(answer.faults());
        answer
    }

    /// The book: the site and the entries, the last one maybe in doubt.
    pub fn book(&self) -> &Book<LIMIT>
        ensures history { result.now.history ≡ self.now.history }
        ensures durable { IsDurable D.trace D.moment D.faults LIMIT self.now }
    {
        &self.records.book
    }

    /// How many of its answers were `DiskFault`. The count stays at the last `u64` once it is there.
    pub fn failed(&self) -> u64
        ensures count { result ≡ self.now.failed }
        ensures durable { IsDurable D.trace D.moment D.faults LIMIT self.now }
    {
        self.failed
    }

    /// Whether its last entry is in doubt: a crash leaves it or not.
    pub fn doubt(&self) -> bool
        ensures doubt { result ≡ self.now.doubt }
        ensures durable { IsDurable D.trace D.moment D.faults LIMIT self.now }
    {
        self.records.doubt
    }

    /// How it stood when it was made.
    pub fn opened(&self) -> Opened
        ensures opened { result ≡ self.now.opened }
    {
        self.opened
    }

    /// Its disk, after it has opened the gate of an entry in doubt once more, and whether that entry is still in doubt.
    ///
    /// If nothing is in doubt, it makes no call. Takes no memory.
    pub fn finish(self) -> (D, bool)
        ensures untouched { self.doubt ≡ false → (result.0 ≡ self.disk) × (result.1 ≡ false) }
        ensures since { EachFrom (D.trace result.0) self.opened.moment (RecoversFront LIMIT self.history self.opened.entries) }
        ensures now { EachNow (D.trace result.0) (RecoversNow LIMIT result.1 self.history) }
        ensures acknowledged { KeepsAcknowledged D.trace LIMIT self result.0 }
        ensures moves { MovesOn (D.trace self.disk) (D.trace result.0) (D.moment self.disk) (D.moment result.0) }
        ensures continues { Extends (D.trace self.found) (D.trace result.0) }
        ensures counts { CountsOnceIf (result.1 ≡ true) (D.faults self.disk) (D.faults result.0) }
        ensures counted { result.1 ≡ false → D.faults result.0 ≡ raised self.failed self.opened.faults }
        ensures counted_once_more { result.1 ≡ true → D.faults result.0 ≡ raised (self.failed + 1) self.opened.faults }
    {
        let mut records = self.records;
        let doubt = records.settle().is_err();
        (records.journal.into_disk(), doubt)
    }
}
