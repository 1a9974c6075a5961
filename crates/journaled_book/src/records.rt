//! A book and its journal, and the steps in which a command is entered in both.

ghost use Rattle.std.specs.Prelude.{◌≡◌, ◌≤◌, false, true, Some, IfOk, OnErr, OnOk, is_err};
ghost use Rattle.farm_base.specs.Counts.{CountsOnce};
ghost use Rattle.farm_disk.specs.Runs.{EachSince, MovesOn};
ghost use Rattle.farm_history.specs.Desk.{reply_at};
ghost use Rattle.farm_history.specs.Encoding.{IsTyped, entry_encoding};
ghost use Rattle.farm_history.specs.History.{IsWellFormed, last_place, with_entry};
ghost use Rattle.farm_history.specs.Verdicts.{IsNext};
ghost use Rattle.farm_journal.specs.Standing.{Stands};
ghost use Rattle.site_encoding.specs.Encoding.{site_encoding};
ghost use Rattle.journaled_book.specs.Histories.{IsRecordable, Recovers, RecoversFront, certain, entry_encodings};
ghost use Rattle.journaled_book.specs.Records.{AreRecords, IsReady};

use farm_base::NoMemory;
use farm_book::Book;
use farm_disk::Disk;
use farm_history::{Entry, Reply};
use farm_journal::{DiskFault, Journal};

/// A book and the journal that keeps it, and whether the last entry is in doubt: its body is in the journal, and its gate may not be open.
#[derive(Drop)]
pub struct Records<D: Disk, const LIMIT: usize> {
    /// The journal.
    pub journal: Journal<D>,
    /// The book.
    pub book: Book<LIMIT>,
    /// Whether the last entry is in doubt.
    pub doubt: bool,
    /// Room for the bytes of the entry that is put next.
    pub bytes: Vec<u8>,
}

impl<D: Disk, const LIMIT: usize> Records<D, LIMIT> {
    /// Opens the gate of an entry in doubt. If none is in doubt, it makes no call.
    pub fn settle(&mut self) -> Result<(), DiskFault>
        requires kept { AreRecords D.trace LIMIT self.old.doubt self.old.book.history self.old.journal }
        ensures kept { AreRecords D.trace LIMIT self.new.doubt self.new.book.history self.new.journal }
        ensures book { self.new.book ≡ self.old.book }
        ensures settled { self.new.doubt ≡ is_err result }
        ensures untouched { self.old.doubt ≡ false → (self.new.journal ≡ self.old.journal) × (self.new.doubt ≡ false) }
        ensures images { EachSince (D.trace self.old.journal.disk) (D.trace self.new.journal.disk)
            (RecoversFront LIMIT self.old.book.history (certain self.old.doubt self.old.book.history)) }
        ensures moves { MovesOn (D.trace self.old.journal.disk) (D.trace self.new.journal.disk) (D.moment self.old.journal.disk) (D.moment self.new.journal.disk) }
        ensures counts { CountsOnce (D.faults self.old.journal.disk) (D.faults self.new.journal.disk) result }
    {
        if self.doubt {
            self.journal.open_gate()?;
            self.doubt = false;
        }
        Ok(())
    }

    // Takes all the memory that an entry needs, and writes the entry's bytes into the buffer.
    pub(crate) fn take_memory(&mut self, entry: &Entry) -> Result<(), NoMemory>
        requires well_formed { IsWellFormed entry.now }
        requires kept { AreRecords D.trace LIMIT self.old.doubt self.old.book.history self.old.journal }
        ensures kept { AreRecords D.trace LIMIT self.new.doubt self.new.book.history self.new.journal }
        ensures ready { OnOk result (IsReady LIMIT entry.now self.new.book self.new.bytes.items self.new.journal.room) }
        ensures history { self.new.book.history ≡ self.old.book.history }
        ensures doubt { self.new.doubt ≡ self.old.doubt }
        ensures disk { self.new.journal.disk ≡ self.old.journal.disk }
    {
        self.book.reserve()?;
        self.bytes.clear();
        entry.write(&mut self.bytes)?;
        self.journal.reserve(self.bytes.len())
    }

    // Puts the body of an entry that comes next, the bytes in the buffer; its gate stays closed.
    pub(crate) fn put(&mut self, entry: &Entry) -> Result<(), DiskFault>
        requires kept { AreRecords D.trace LIMIT false self.old.book.history self.old.journal }
        requires ready { IsReady LIMIT entry.now self.old.book self.old.bytes.items self.old.journal.room }
        ensures pending { OnOk result (Stands D.trace (site_encoding self.old.book.history.site) (entry_encodings self.old.book.history)
            (Some (entry_encoding entry.now)) self.new.journal) }
        ensures kept { OnErr result (AreRecords D.trace LIMIT false self.old.book.history self.new.journal) }
        ensures book { self.new.book ≡ self.old.book }
        ensures doubt { self.new.doubt ≡ self.old.doubt }
        ensures images { EachSince (D.trace self.old.journal.disk) (D.trace self.new.journal.disk) (Recovers LIMIT self.old.book.history) }
        ensures moves { MovesOn (D.trace self.old.journal.disk) (D.trace self.new.journal.disk) (D.moment self.old.journal.disk) (D.moment self.new.journal.disk) }
        ensures counts { CountsOnce (D.faults self.old.journal.disk) (D.faults self.new.journal.disk) result }
    {
        self.journal.put_body(&self.bytes)
    }

    // Enters an entry whose body is pending in the book, and opens its gate. After a fault it is in doubt.
    pub(crate) fn commit(&mut self, entry: Entry) -> Result<Reply, DiskFault>
        requires recordable { IsRecordable LIMIT self.old.book.history }
        requires pending { Stands D.trace (site_encoding self.old.book.history.site) (entry_encodings self.old.book.history)
            (Some (entry_encoding entry)) self.old.journal }
        requires next { IsNext LIMIT self.old.book.history entry }
        requires typed { IsTyped entry }
        requires room { 1 ≤ self.old.book.spare }
        ensures kept { AreRecords D.trace LIMIT self.new.doubt self.new.book.history self.new.journal }
        ensures entered { self.new.book.history ≡ with_entry self.old.book.history entry }
        ensures reply { IfOk result (λ reply. reply ≡ reply_at self.new.book.history (last_place self.new.book.history)) }
        ensures settled { self.new.doubt ≡ is_err result }
        ensures images { EachSince (D.trace self.old.journal.disk) (D.trace self.new.journal.disk)
            (RecoversFront LIMIT self.new.book.history (last_place self.old.book.history)) }
        ensures moves { MovesOn (D.trace self.old.journal.disk) (D.trace self.new.journal.disk) (D.moment self.old.journal.disk) (D.moment self.new.journal.disk) }
        ensures counts { CountsOnce (D.faults self.old.journal.disk) (D.faults self.new.journal.disk) result }
    {
        let reply = self.book.commit(entry);
        self.doubt = true;
        self.settle()?;
        Ok(reply)
    }
}
