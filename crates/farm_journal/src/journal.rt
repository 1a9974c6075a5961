//! An open journal, and the two steps in which it takes a body.

ghost use Rattle.std.specs.Prelude.{◌≡◌, ◌<◌, ◌≤◌, ◌+◌, ◌++◌, [], ◌∷◌, ℕ, List, IsSome, MatchResult, None, OnErr, OnOk, Some, is_err, is_ok, is_some, length, max};
ghost use Rattle.farm_base.specs.Counts.{CountsOnce};
ghost use Rattle.farm_base.specs.Known.{WhereKnown};
ghost use Rattle.farm_disk.specs.Runs.{EachSince, MovesOn};
ghost use Rattle.farm_journal.specs.Layout.{IsJournalOf, counted};
ghost use Rattle.farm_journal.specs.Standing.{IsEither, IsWithinOffsets, Stands};
ghost use Rattle.farm_journal.specs.Steps.{AddsOneWrite};
ghost use Rattle.farm_journal.specs.declared.limits.TheConstants.{MAX_BODIES, MAX_BODY};

use crate::record_buffer::RecordBuffer;
use crate::writing::write_synced;
use crate::{DiskFault, MAX_BODIES, MAX_BODY};
use farm_base::NoMemory;
use farm_disk::{Disk, Stand};
use std::marker::Model;

/// A journal on a disk: a header, and bodies that were taken one by one.
///
/// A body is taken in two steps. `put_body` writes it after the last gate, which stays closed: to a crash it isn't there yet.
/// `open_gate` opens that gate, and from its `Ok` on the body is in the journal whatever a crash does. Each step is one write and
/// one sync. Only `create`, `recover` and `reserve` take memory.
#[derive(Drop)]
pub struct Journal<D> {
    disk: D,
    gate: u64,
    count: u32,
    next_gate: Option<u64>,
    buffer: RecordBuffer,
}

impl<D> Model for Journal<D> {
    ghost use Rattle.farm_journal.specs.Standing.{IsWithinOffsets, JournalState};

    ghost Value = { JournalState D };

    ghost view = { λ journal. record { disk = journal.disk; gate = journal.gate; count = journal.count; next_gate = journal.next_gate; room = journal.buffer.room } };

    ghost invariant = { λ journal. IsWithinOffsets journal.gate journal.count journal.next_gate };
}

impl<D: Disk> Journal<D> {
    // A journal whose last gate stands at an offset, after `count` bodies, on a disk that has it.
    pub(crate) fn at_rest(disk: D, gate: u64, count: u32, buffer: RecordBuffer) -> Self
        requires offsets { IsWithinOffsets gate count None }
        ensures disk { result.disk ≡ disk }
        ensures gate { result.gate ≡ gate }
        ensures count { result.count ≡ count }
        ensures next_gate { result.next_gate ≡ None }
        ensures room { result.room ≡ buffer.room }
    {
        Journal {
            disk,
            gate,
            count,
            next_gate: None,
            buffer,
        }
    }

    /// Makes room for a body of this length. The room stays over what is put and over faults; where there is no memory it is as it
    /// was.
    pub fn reserve(&mut self, length: usize) -> Result<(), NoMemory>
        ensures room { OnOk result (self.new.room ≡ max self.old.room length) }
        ensures stays { OnErr result (self.new.room ≡ self.old.room) }
        ensures disk { self.new.disk ≡ self.old.disk }
        ensures gate { self.new.gate ≡ self.old.gate }
        ensures count { self.new.count ≡ self.old.count }
        ensures next_gate { self.new.next_gate ≡ self.old.next_gate }
    {
        self.buffer.reserve(length)
    }

    /// Writes a body and a closed gate after the last gate, which stays closed, and syncs. At `Ok` the body is pending; a body
    /// that wasn't put is put again at the same offset. No crash leaves another list of bodies.
    pub fn put_body(&mut self, body: &[u8]) -> Result<(), DiskFault>
        requires room { length body.now ≤ self.old.room }
        requires short { length body.now ≤ MAX_BODY }
        requires idle { self.old.next_gate ≡ None }
        requires count { self.old.count < MAX_BODIES }
        ensures stands { (header : List ℕ) (bodies : List (List ℕ)) → Stands D.trace header bodies None self.old →
            MatchResult result (λ done. Stands D.trace header bodies (Some body.now) self.new) (λ fault. Stands D.trace header bodies None self.new) }
        ensures images { (header : List ℕ) (bodies : List (List ℕ)) → Stands D.trace header bodies None self.old →
            EachSince (D.trace self.old.disk) (D.trace self.new.disk) (IsJournalOf header bodies) }
        ensures one_write { OnOk result (AddsOneWrite (self.old.gate + 1) (counted body.now ++ 0 ∷ []) (D.trace self.old.disk) (D.trace self.new.disk)) }
        ensures moves { MovesOn (D.trace self.old.disk) (D.trace self.new.disk) (D.moment self.old.disk) (D.moment self.new.disk) }
        ensures counts { CountsOnce (D.faults self.old.disk) (D.faults self.new.disk) result }
        ensures pending { is_some self.new.next_gate ≡ is_ok result }
        ensures count { self.new.count ≡ self.old.count }
        ensures room { self.new.room ≡ self.old.room }
    {
        self.buffer.make(body);
        write_synced(&mut self.disk, self.gate + 1, &self.buffer.made()[1..])?;
        self.next_gate = Some(self.gate + 5 + body.len() as u64);
        Ok(())
    }

    /// Opens the last gate, before the body that is pending, and syncs. At `Ok` every crash leaves the body; after a fault it is
    /// still pending, and a crash leaves it or not.
    pub fn open_gate(&mut self) -> Result<(), DiskFault>
        requires pending { IsSome self.old.next_gate }
        ensures stands { (header body : List ℕ) (bodies : List (List ℕ)) → Stands D.trace header bodies (Some body) self.old →
            MatchResult result (λ done. Stands D.trace header (bodies ++ body ∷ []) None self.new) (λ fault. Stands D.trace header bodies (Some body) self.new) }
        ensures images { (header body : List ℕ) (bodies : List (List ℕ)) → Stands D.trace header bodies (Some body) self.old →
            EachSince (D.trace self.old.disk) (D.trace self.new.disk) (IsEither header bodies body) }
        ensures one_write { OnOk result (AddsOneWrite self.old.gate (1 ∷ []) (D.trace self.old.disk) (D.trace self.new.disk)) }
        ensures moves { MovesOn (D.trace self.old.disk) (D.trace self.new.disk) (D.moment self.old.disk) (D.moment self.new.disk) }
        ensures counts { CountsOnce (D.faults self.old.disk) (D.faults self.new.disk) result }
        ensures pending { is_some self.new.next_gate ≡ is_err result }
        ensures counted { OnOk result (self.new.count ≡ self.old.count + 1) }
        ensures uncounted { OnErr result (self.new.count ≡ self.old.count) }
        ensures room { self.new.room ≡ self.old.room }
    {
        write_synced(&mut self.disk, self.gate, &[1])?;
        if let Some(next) = self.next_gate {
            self.gate = next;
            self.count += 1;
            self.next_gate = None;
        }
        Ok(())
    }

    /// Where its disk stands.
    pub fn stand(&self) -> Stand
        ensures moment { result.moment ≡ D.moment self.now.disk }
        ensures faults { result.faults ≡ D.faults self.now.disk }
        ensures states { WhereKnown (D.trace self.now.disk) (λ states. length states ≡ result.moment + 1) }
    {
        self.disk.stand()
    }

    /// Its disk, to look at.
    pub fn disk(&self) -> &D
        ensures disk { result.now ≡ self.now.disk }
    {
        &self.disk
    }

    /// Its disk. Takes no memory and makes no call on it.
    pub fn into_disk(self) -> D
        ensures disk { result ≡ self.disk }
    {
        self.disk
    }
}
