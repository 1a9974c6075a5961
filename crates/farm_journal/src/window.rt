//! The bytes of a disk from an offset on, read in large pieces.

ghost use Rattle.std.specs.Prelude.{◌≡◌, ◌<◌, ◌≤◌, ◌+◌, ◌-◌, ◌^◌, [], IfErr, IfOk, OnOk, drop, length, take};
ghost use Rattle.farm_base.specs.Counts.{Counts};
ghost use Rattle.farm_base.specs.Known.{KeepsKnown};
ghost use Rattle.farm_disk.specs.Calls.{Reads};
ghost use Rattle.farm_disk.specs.Runs.{MovesOn, WritesNothing};
ghost use Rattle.farm_journal.specs.Progress.{IsAllSynced};
ghost use Rattle.farm_journal.specs.Recovery.{size_at};
ghost use Rattle.farm_journal.specs.Windows.{BeginsWith, CountsAhead, IsOutside, Looks, Shows};
ghost use Rattle.std.specs.Int.{to_be_bytes, w32};

use crate::limits::LENGTH_BYTES;
use crate::{MAX_BODY, RecoverFault};
use farm_base::NoMemory;
use farm_disk::{Disk, disk_laws};
use farm_ports::Failed;
use std::alloc::Global;
use std::marker::Model;

// The least length of the buffer. A read asks for as many bytes as there is room for.
const PIECE: usize = 1 << 20;

/// A disk, an offset, and the bytes that were read from there on.
#[derive(Drop)]
pub struct Window<D> {
    disk: D,
    offset: u64,
    // The bytes ahead of the offset stand from `from` to `to`.
    bytes: Vec<u8>,
    from: usize,
    to: usize,
}

impl<D> Model for Window<D> {
    ghost use Rattle.std.specs.Prelude.{◌-◌, ◌≤◌, drop, length, take};
    ghost use Rattle.farm_journal.specs.Windows.{WindowState};

    ghost Value = { WindowState D };

    ghost view = { λ window. record { disk = window.disk; offset = window.offset; ahead = take (window.to - window.from) (drop window.from window.bytes.items) } };

    ghost invariant = { λ window. (window.from ≤ window.to) × (window.to ≤ length window.bytes.items) };
}

impl<D: Disk> Window<D> {
    /// At the start of a disk, before anything is read.
    pub(crate) fn new(alloc: Global, disk: D) -> Self
        ensures disk { result.disk ≡ disk }
        ensures offset { result.offset ≡ 0 }
        ensures ahead { result.ahead ≡ [] }
    {
        Window {
            disk,
            offset: 0,
            bytes: Vec::new(alloc),
            from: 0,
            to: 0,
        }
    }

    /// Syncs the disk, before anything is read.
    pub(crate) fn sync(&mut self) -> Result<(), RecoverFault>
        ensures synced { OnOk result (IsAllSynced (D.trace self.new.disk)) }
        ensures fault { IfErr result (λ fault. fault ≡ RecoverFault.DiskFault) }
        ensures wrote_nothing { WritesNothing (D.trace self.old.disk) (D.trace self.new.disk) }
        ensures moves { MovesOn (D.trace self.old.disk) (D.trace self.new.disk) (D.moment self.old.disk) (D.moment self.new.disk) }
        ensures counts { Counts (D.faults self.old.disk) (D.faults self.new.disk) result }
        ensures offset { self.new.offset ≡ self.old.offset }
        ensures ahead { self.new.ahead ≡ self.old.ahead }
    {
        // These two calls only say what a crash may leave before the sync and after it.
        let _before = self.disk.stand();
        disk_laws();
        Ok(self.disk.sync()?)
    }

    /// The bytes that were read from the offset on.
    pub(crate) fn ahead(&self) -> &[u8]
        ensures { result.now ≡ self.now.ahead }
    {
        &self.bytes[self.from..self.to]
    }

    /// Whether at least this many bytes are ahead; reads what is missing.
    pub(crate) fn look(&mut self, need: usize) -> Result<bool, RecoverFault>
        requires shows { Shows D.trace self.old }
        requires offset { self.old.offset ≤ 2 ^ 60 }
        ensures shows { Shows D.trace self.new }
        ensures looked { IfOk result (Looks (D.trace self.new.disk) self.old.offset need self.new.ahead) }
        ensures fault { IfErr result IsOutside }
        ensures grows { BeginsWith self.old.ahead self.new.ahead }
        ensures keeps { KeepsKnown (D.trace self.old.disk) (D.trace self.new.disk) (D.faults self.old.disk) (D.faults self.new.disk)
            RecoverFault.DiskFault result }
        ensures moment { D.moment self.old.disk ≤ D.moment self.new.disk }
        ensures offset { self.new.offset ≡ self.old.offset }
    {
        if self.to - self.from >= need {
            return Ok(true);
        }
        move_to_front(&mut self.bytes, self.from, self.to);
        self.to -= self.from;
        self.from = 0;
        lengthen(&mut self.bytes, need)?;
        while self.to < need {
            let at = self.offset + self.to as u64;
            let count = read_piece(&mut self.disk, at, &mut self.bytes, self.to)?;
            if count == 0 {
                return Ok(false);
            }
            self.to += count;
        }
        Ok(true)
    }

    /// How many bytes are counted ahead: those after their length in 4 bytes, where all of them are there and they aren't more
    /// than a body has.
    pub(crate) fn counted(&mut self) -> Result<Option<usize>, RecoverFault>
        requires shows { Shows D.trace self.old }
        requires offset { self.old.offset ≤ 2 ^ 60 }
        ensures shows { Shows D.trace self.new }
        ensures counted { IfOk result (CountsAhead (D.trace self.new.disk) self.old.offset self.new.ahead) }
        ensures fault { IfErr result IsOutside }
        ensures keeps { KeepsKnown (D.trace self.old.disk) (D.trace self.new.disk) (D.faults self.old.disk) (D.faults self.new.disk)
            RecoverFault.DiskFault result }
        ensures moment { D.moment self.old.disk ≤ D.moment self.new.disk }
        ensures offset { self.new.offset ≡ self.old.offset }
    {
        if !self.look(LENGTH_BYTES)? {
            return Ok(None);
        }
        let size = size_at(self.ahead());
        if size > MAX_BODY || !self.look(LENGTH_BYTES + size)? {
            return Ok(None);
        }
        Ok(Some(size))
    }

    /// Goes past bytes that are ahead.
    pub(crate) fn pass(&mut self, count: usize)
        requires ahead { count ≤ length self.old.ahead }
        requires offset { self.old.offset ≤ 2 ^ 60 }
        ensures disk { self.new.disk ≡ self.old.disk }
        ensures offset { self.new.offset ≡ self.old.offset + count }
        ensures ahead { self.new.ahead ≡ drop count self.old.ahead }
        ensures shows { Shows D.trace self.old → Shows D.trace self.new }
    {
        self.from += count;
        self.offset += count as u64;
    }

    /// The offset at which it is.
    pub(crate) fn offset(&self) -> u64
        ensures { result ≡ self.now.offset }
    {
        self.offset
    }

    /// Its disk.
    pub(crate) fn into_disk(self) -> D
        ensures { result ≡ self.disk }
    {
        self.disk
    }
}

// Moves the bytes from an index up to another one to the front.
fn move_to_front(bytes: &mut Vec<u8>, from: usize, to: usize)
    requires order { from ≤ to }
    requires within { to ≤ length bytes.old.items }
    ensures moved { take (to - from) bytes.new.items ≡ take (to - from) (drop from bytes.old.items) }
    ensures size { length bytes.new.items ≡ length bytes.old.items }
{
    bytes.copy_within(from..to, 0);
}

// Reads bytes of a disk at an offset into a buffer, from an index on; how many.
fn read_piece<D: Disk>(
    disk: &mut D,
    at: u64,
    bytes: &mut Vec<u8>,
    to: usize,
) -> Result<usize, Failed>
    requires { to ≤ length bytes.old.items }
    ensures read { Reads (D.trace disk.old) (D.trace disk.new) at (drop to bytes.new.items) result }
    ensures front { take to bytes.new.items ≡ take to bytes.old.items }
    ensures size { length bytes.new.items ≡ length bytes.old.items }
    ensures moment { D.moment disk.old ≤ D.moment disk.new }
    ensures counts { Counts (D.faults disk.old) (D.faults disk.new) result }
{
    disk.read_at(at, &mut bytes[to..])
}

// Makes room for this many bytes.
fn lengthen(bytes: &mut Vec<u8>, need: usize) -> Result<(), NoMemory>
    ensures room { OnOk result (need ≤ length bytes.new.items) }
    ensures kept { take (length bytes.old.items) bytes.new.items ≡ bytes.old.items }
{
    let whole = need.max(PIECE);
    if bytes.len() < whole {
        bytes.resize(whole, 0)?;
    }
    Ok(())
}

// The number that these bytes begin with.
fn size_at(bytes: &[u8]) -> usize
    requires { LENGTH_BYTES ≤ length bytes.now }
    ensures size { result ≡ size_at bytes.now }
    ensures counts { take LENGTH_BYTES bytes.now ≡ to_be_bytes w32 result }
{
    u32::from_be_bytes([bytes[0], bytes[1], bytes[2], bytes[3]]) as usize
}
