//! What a disk in memory keeps: the bytes at the start, its writes and syncs since, and what reads give.

ghost use Rattle.std.specs.Prelude.{◌≡◌, ◌≤◌, ◌+◌, ◌*◌, ◌++◌, [], ◌∷◌, IfOk, IsOk, OnErr, OnOk, length};
ghost use Rattle.farm_disk.specs.Memory.{HasRoomForCall, HasRoomForWrite, LeavesRoom, seen_of};
ghost use Rattle.farm_disk.specs.Rebuilt.{found_at, rebuilt};

use crate::bytes_at_offset::overlay;
use crate::rebuilding::image_at;
use crate::{DiskCall, Fill};
use farm_base::NoMemory;
use farm_ports::{Bytes, CopyRoom};
use std::alloc::Global;
use std::marker::Model;

/// The bytes at the start, the writes and syncs in their order, the bytes that reads give, and room for copies of what is written.
#[derive(Drop)]
pub struct KeptDisk {
    start: Vec<u8>,
    calls: Vec<DiskCall>,
    seen: Vec<u8>,
    copies: CopyRoom,
}

impl Model for KeptDisk {
    ghost use Rattle.std.specs.Prelude.{◌≡◌, vec_capacity};
    ghost use Rattle.farm_disk.specs.Memory.{KeptDisk as Kept, seen_of};

    ghost Value = { Kept };

    ghost view = { λ disk. record {
      start = disk.start.items;
      calls = disk.calls.items;
      room = record { calls = vec_capacity disk.calls; copies = disk.copies; bytes = vec_capacity disk.seen };
    } };

    ghost invariant = { λ disk. disk.seen.items ≡ seen_of disk.start.items disk.calls.items };
}

impl KeptDisk {
    /// A disk with these bytes, all of them synced.
    #[tactic(auto, unfolding(crate::specs::Memory::seen_of))]
    pub(crate) fn new(alloc: Global, bytes: Vec<u8>) -> Result<Self, NoMemory>
        ensures start { IfOk result (λ disk. disk.start ≡ bytes.items) }
        ensures calls { IfOk result (λ disk. disk.calls ≡ []) }
    {
        Ok(KeptDisk {
            start: bytes.to_vec(alloc)?,
            calls: Vec::new(alloc),
            seen: bytes,
            copies: CopyRoom::none(alloc),
        })
    }

    /// Makes room for this many writes and syncs more, for copies of this many bytes of each write, and for this many bytes that
    /// reads give. Room for copies that was there before is given up.
    pub(crate) fn reserve(
        &mut self,
        alloc: Global,
        calls: usize,
        size: usize,
        bytes: usize,
    ) -> Result<(), NoMemory>
        ensures room { OnOk result (length self.new.calls + calls ≤ self.new.room.calls) }
        ensures count { OnOk result (self.new.room.copies.count ≡ calls) }
        ensures size { OnOk result (self.new.room.copies.size ≡ size) }
        ensures bytes { OnOk result (bytes ≤ self.new.room.bytes) }
        ensures calls { self.new.calls ≡ self.old.calls }
        ensures start { self.new.start ≡ self.old.start }
        ensures err { OnErr result (self.new.room.copies ≡ self.old.room.copies) }
        ensures calls_grow { self.old.room.calls ≤ self.new.room.calls }
        ensures bytes_grow { self.old.room.bytes ≤ self.new.room.bytes }
    {
        let copies = CopyRoom::new(alloc, calls, size)?;
        self.calls.reserve(calls)?;
        self.seen.reserve(bytes)?;
        self.copies = copies;
        Ok(())
    }

    /// The bytes that reads give.
    pub(crate) fn seen(&self) -> &[u8]
        ensures { result.now ≡ seen_of self.now.start self.now.calls }
    {
        &self.seen
    }

    /// Keeps a write, and lets reads give what it wrote where it is done. Changes nothing where there is no memory.
    pub(crate) fn write(
        &mut self,
        alloc: Global,
        at: u64,
        bytes: &[u8],
        done: bool,
    ) -> Result<(), NoMemory>
        ensures kept { OnOk result (self.new.calls ≡ self.old.calls ++ DiskCall.Write at bytes.now done ∷ []) }
        ensures start { self.new.start ≡ self.old.start }
        ensures stays { OnErr result (self.new.calls ≡ self.old.calls) }
        ensures in_room { HasRoomForWrite at bytes.now self.old.calls self.old.room → IsOk result }
        ensures leaves { LeavesRoom self.old.room self.new.room }
    {
        let copy = Bytes::new(self.copies.copy(alloc, bytes)?);
        self.calls.reserve(1)?;
        if done {
            overlay(&mut self.seen, at, bytes, 0)?;
        }
        let call = DiskCall::Write {
            at,
            bytes: copy,
            done,
        };
        Ok(self.calls.push(call)?)
    }

    /// Keeps a sync. Changes nothing where there is no memory.
    #[tactic(auto, using(crate::proofs::Replay::seen_of_sync))]
    pub(crate) fn sync(&mut self, done: bool) -> Result<(), NoMemory>
        ensures kept { OnOk result (self.new.calls ≡ self.old.calls ++ DiskCall.Sync done ∷ []) }
        ensures start { self.new.start ≡ self.old.start }
        ensures stays { OnErr result (self.new.calls ≡ self.old.calls) }
        ensures in_room { HasRoomForCall self.old.calls self.old.room → IsOk result }
        ensures leaves { LeavesRoom self.old.room self.new.room }
    {
        Ok(self.calls.push(DiskCall::Sync { done })?)
    }

    /// What a crash at a moment leaves by a fill.
    pub(crate) fn image(&self, alloc: Global, moment: u64, fill: Fill) -> Result<Vec<u8>, NoMemory>
        ensures { IfOk result (λ image. image.items ≡ rebuilt fill self.now.start self.now.start (found_at self.now.calls moment)) }
    {
        image_at(alloc, &self.start, &self.calls, moment, fill)
    }

    /// The present moment: each write or sync took two.
    pub(crate) fn moment(&self) -> u64
        ensures { result ≡ 2 * length self.now.calls }
    {
        2 * self.calls.len() as u64
    }
}
