//! How a request is answered: the gate of an entry in doubt is opened first, then the request is judged, and a command that is accepted is
//! entered.

ghost use Rattle.std.specs.Prelude.{◌≡◌, ◌≢◌, ◌≤◌, ◌≤ℤ◌, Err, false};
ghost use Rattle.farm_base.specs.Counts.{CountsOnceIf};
ghost use Rattle.farm_disk.specs.Runs.{EachSince, MovesOn};
ghost use Rattle.farm_history.specs.Commands.{IsWellFormedCommand};
ghost use Rattle.farm_history.specs.Desk.{IsWellFormedAsk, answered_on, brought_into_range, desk_answer, later_of, stamped};
ghost use Rattle.farm_history.specs.History.{IsMoment, IsWellFormed, last_moment, last_place};
ghost use Rattle.farm_history.specs.Verdicts.{verdict};
ghost use Rattle.journaled_book.specs.Replies.{IsAnswered, answer_of};
ghost use Rattle.journaled_book.specs.Histories.{HasGrown, RecoversFront, certain};
ghost use Rattle.journaled_book.specs.Records.{AreRecords};

use crate::answer::NoReply;
use crate::records::Records;
use farm_disk::Disk;
use farm_history::{Ask, Command, Entry, LAST_MOMENT, Reply, Verdict};

impl<D: Disk, const LIMIT: usize> Records<D, LIMIT> {
    /// Answers a request of a caller at a number of the clock, in seconds since 1970-01-01 00:00:00 UTC.
    pub fn answer(&mut self, caller: u32, now: i64, ask: &Ask) -> Result<Reply, NoReply>
        requires well_formed { IsWellFormedAsk ask.now }
        requires kept { AreRecords D.trace LIMIT self.old.doubt self.old.book.history self.old.journal }
        ensures kept { AreRecords D.trace LIMIT self.new.doubt self.new.book.history self.new.journal }
        ensures answered { IsAnswered self.old.book.history self.new.book.history self.new.doubt
            (desk_answer LIMIT self.old.book.history caller now ask.now) (answer_of result) }
        ensures grows { HasGrown self.old.book.history self.new.book.history }
        ensures certain { certain self.old.doubt self.old.book.history ≤ certain self.new.doubt self.new.book.history }
        ensures untouched { self.old.doubt ≡ false →
            (desk_answer LIMIT self.old.book.history caller now ask.now).history ≡ self.old.book.history →
            self.new.journal.disk ≡ self.old.journal.disk }

        // Memory is taken before the first byte is written.
        ensures unwritten { self.old.doubt ≡ false → result ≡ Err NoReply.NoMemory → self.new.journal.disk ≡ self.old.journal.disk }

        // Nothing is in doubt where memory ran out, and an entry comes into doubt only as it is entered.
        ensures sure { result ≡ Err NoReply.NoMemory → self.new.doubt ≡ false }
        ensures stays_sure { self.old.doubt ≡ false → self.new.book.history ≡ self.old.book.history → self.new.doubt ≡ false }
        ensures images { EachSince (D.trace self.old.journal.disk) (D.trace self.new.journal.disk)
            (RecoversFront LIMIT self.new.book.history (certain self.old.doubt self.old.book.history)) }
        ensures moves { MovesOn (D.trace self.old.journal.disk) (D.trace self.new.journal.disk) (D.moment self.old.journal.disk) (D.moment self.new.journal.disk) }
        ensures counts { CountsOnceIf (result ≡ Err NoReply.DiskFault) (D.faults self.old.journal.disk) (D.faults self.new.journal.disk) }
    {
        self.settle()?;
        match ask {
            Ask::Look(query) => Ok(self.book.look(query)),
            Ask::Do { account, key, cmd } => {
                let entry = self.entry_of(caller, now, *account, *key, *cmd);
                self.judge_and_enter(entry)
            }
        }
    }

    // The entry that a command would be, at a number of the clock.
    #[tactic(auto, unfolding(farm_history::specs::Desk::stamped_moment))]
    fn entry_of(&self, caller: u32, now: i64, account: u32, key: u64, cmd: Command) -> Entry
        requires command { IsWellFormedCommand cmd }
        ensures entry { result ≡ stamped self.now.book.history caller now account key cmd }
        ensures well_formed { IsWellFormed result }
        ensures moment { last_moment self.now.book.history ≤ℤ result.at }
    {
        Entry {
            caller,
            account,
            key,
            at: stamped_moment(self.book.last_moment(), now),
            cmd,
        }
    }

    // Judges an entry with nothing in doubt before it, and enters it if it is accepted.
    fn judge_and_enter(&mut self, entry: Entry) -> Result<Reply, NoReply>
        requires well_formed { IsWellFormed entry }
        requires moment { last_moment self.old.book.history ≤ℤ entry.at }
        requires certain { self.old.doubt ≡ false }
        requires kept { AreRecords D.trace LIMIT self.old.doubt self.old.book.history self.old.journal }
        ensures kept { AreRecords D.trace LIMIT self.new.doubt self.new.book.history self.new.journal }
        ensures answered { IsAnswered self.old.book.history self.new.book.history self.new.doubt
            (answered_on self.old.book.history entry (verdict LIMIT self.old.book.history entry)) (answer_of result) }
        ensures grows { HasGrown self.old.book.history self.new.book.history }
        ensures certain { certain self.old.doubt self.old.book.history ≤ certain self.new.doubt self.new.book.history }
        ensures untouched { (answered_on self.old.book.history entry (verdict LIMIT self.old.book.history entry)).history ≡ self.old.book.history →
            self.new.journal.disk ≡ self.old.journal.disk }
        ensures unwritten { result ≡ Err NoReply.NoMemory → self.new.journal.disk ≡ self.old.journal.disk }
        ensures sure { result ≡ Err NoReply.NoMemory → self.new.doubt ≡ false }
        ensures stays_sure { self.new.book.history ≡ self.old.book.history → self.new.doubt ≡ false }
        ensures images { EachSince (D.trace self.old.journal.disk) (D.trace self.new.journal.disk)
            (RecoversFront LIMIT self.new.book.history (last_place self.old.book.history)) }
        ensures moves { MovesOn (D.trace self.old.journal.disk) (D.trace self.new.journal.disk) (D.moment self.old.journal.disk) (D.moment self.new.journal.disk) }
        ensures counts { CountsOnceIf (result ≡ Err NoReply.DiskFault) (D.faults self.old.journal.disk) (D.faults self.new.journal.disk) }
    {
        match self.book.judge(&entry) {
            Verdict::Repeat(place) => Ok(self.book.reply_at(place)),
            Verdict::Refused(rule) => Ok(Reply::Refused(rule)),
            Verdict::Accept => {
                self.take_memory(&entry)?;
                self.put(&entry)?;
                Ok(self.commit(entry)?)
            }
        }
    }
}

// The moment of a further entry: the clock's number brought into the range of moments, or the last moment if that is later.
fn stamped_moment(last: i64, now: i64) -> i64
    requires last { IsMoment last }
    ensures moment { result ≡ later_of last (brought_into_range now) }
    ensures within { IsMoment result }
    ensures after { last ≤ℤ result }
{
    last.max(now.clamp(0, LAST_MOMENT))
}
