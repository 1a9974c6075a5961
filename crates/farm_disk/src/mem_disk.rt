//! A disk in memory.

ghost use Rattle.std.specs.Prelude.{◌≡◌, ◌↔◌, ◌≤◌, ◌+◌, ◌-◌, ◌*◌, ◌++◌, [], ◌∷◌, false, IfOk, IsErr, OnErr, OnOk, Some, length, min};
ghost use Rattle.farm_base.specs.Counts.{CountsOnce};
ghost use Rattle.farm_base.specs.Known.{WhereKnown};
ghost use Rattle.farm_disk.specs.Calls.{Measures, Passes, Reads, Syncs, Writes};
ghost use Rattle.farm_disk.specs.Images.{IsCrashImage, at_rest, present, state_at};
ghost use Rattle.farm_disk.specs.Memory.{HasRoomForCall, HasRoomForWrite, Keeps, LeavesRoom, seen_of, states_of};
ghost use Rattle.farm_disk.specs.Rebuilt.{IsFilled};
ghost use Rattle.farm_ports.specs.Objects.{CountsCall, FailsNext};

use crate::bytes_at_offset::copy_at;
use crate::recorded_calls::KeptDisk;
use crate::{Disk, DiskCall, Fill, Stand};
use farm_base::NoMemory;
use farm_ports::{Failed, FailingCalls};
use std::alloc::Global;
use std::marker::Model;

/// A disk in memory: it keeps its writes and syncs, and fails the calls that it has in a list.
///
/// Measurings, reads, writes and syncs are numbered together, from 1. A listed write has begun and leaves what reads give as it
/// was; a listed sync changes nothing. A write or a sync that finds no memory fails, and takes no moment: with room from `reserve`
/// none does.
#[derive(Drop)]
pub struct MemDisk {
    alloc: Global,
    kept: KeptDisk,
    counted: FailingCalls,
}

impl Model for MemDisk {
    ghost use Rattle.farm_disk.specs.Memory.{MemState};

    ghost Value = { MemState };

    ghost view = { λ disk. record { start = disk.kept.start; calls = disk.kept.calls; room = disk.kept.room; counted = disk.counted } };
}

impl MemDisk {
    ghost use Rattle.farm_ports.specs.Objects.{no_calls};

    /// A disk with these bytes, all of them synced, whose calls of these numbers fail.
    #[tactic(auto, unfolding(crate::specs::Memory::states_of))]
    pub fn new(alloc: Global, bytes: Vec<u8>, fails: Vec<u64>) -> Result<Self, NoMemory>
        ensures known { IfOk result (λ disk. ⟦<MemDisk as Disk>⟧.trace disk ≡ Some (at_rest bytes.items ∷ [])) }
        ensures moment { IfOk result (λ disk. ⟦<MemDisk as Disk>⟧.moment disk ≡ 0) }
        ensures faults { IfOk result (λ disk. ⟦<MemDisk as Disk>⟧.faults disk ≡ 0) }
        ensures start { IfOk result (λ disk. disk.start ≡ bytes.items) }
        ensures calls { IfOk result (λ disk. disk.calls ≡ []) }
        ensures counted { IfOk result (λ disk. disk.counted ≡ no_calls fails.items) }
    {
        Ok(MemDisk {
            alloc,
            kept: KeptDisk::new(alloc, bytes)?,
            counted: FailingCalls::new(fails),
        })
    }

    /// Makes room for `calls` writes and syncs more, each write of up to `size` bytes, as far as reads give up to `bytes` bytes.
    ///
    /// Room for what is written that was there before is given up.
    pub fn reserve(&mut self, calls: usize, size: usize, bytes: usize) -> Result<(), NoMemory>
        ensures room { OnOk result (length self.new.calls + calls ≤ self.new.room.calls) }
        ensures count { OnOk result (self.new.room.copies.count ≡ calls) }
        ensures size { OnOk result (self.new.room.copies.size ≡ size) }
        ensures bytes { OnOk result (bytes ≤ self.new.room.bytes) }
        ensures calls { self.new.calls ≡ self.old.calls }
        ensures start { self.new.start ≡ self.old.start }
        ensures counted { self.new.counted ≡ self.old.counted }
        ensures err { OnErr result (self.new.room.copies ≡ self.old.room.copies) }
        ensures calls_grow { self.old.room.calls ≤ self.new.room.calls }
        ensures bytes_grow { self.old.room.bytes ≤ self.new.room.bytes }
    {
        self.kept.reserve(self.alloc, calls, size, bytes)
    }

    /// The bytes that a crash at a moment leaves, by what it leaves where it may leave any byte.
    #[tactic(auto, using(crate::proofs::Rebuilt::image_is_image, crate::proofs::Rebuilt::image_is_filled))]
    pub fn image(&self, alloc: Global, moment: u64, fill: Fill) -> Result<Vec<u8>, NoMemory>
        requires reached { moment ≤ ⟦<MemDisk as Disk>⟧.moment self.now }
        ensures image { IfOk result (λ image. WhereKnown (⟦<MemDisk as Disk>⟧.trace self.now) (λ states. IsCrashImage (state_at states moment) image.items)) }
        ensures filled { IfOk result (λ image. IsFilled fill self.now moment image.items) }
    {
        self.kept.image(alloc, moment, fill)
    }
}

impl Disk for MemDisk {
    ghost trace = { λ disk. Some (states_of disk.start disk.calls) };

    ghost moment = { λ disk. 2 * length disk.calls };

    ghost faults = { λ disk. disk.counted.faults };

    fn len(&mut self) -> Result<u64, Failed>
        ensures size { Measures (⟦<MemDisk as Disk>⟧.trace self.old) (⟦<MemDisk as Disk>⟧.trace self.new) result }
        ensures moment { Passes (⟦<MemDisk as Disk>⟧.trace self.old) (⟦<MemDisk as Disk>⟧.trace self.new) (⟦<MemDisk as Disk>⟧.moment self.old) (⟦<MemDisk as Disk>⟧.moment self.new) }
        ensures counts { CountsOnce (⟦<MemDisk as Disk>⟧.faults self.old) (⟦<MemDisk as Disk>⟧.faults self.new) result }

        // A listed measuring fails, and no other.
        ensures listed { IsErr result ↔ FailsNext self.old.counted }
        ensures counted { CountsCall self.old.counted self.new.counted }
        ensures start { self.new.start ≡ self.old.start }
        ensures calls { self.new.calls ≡ self.old.calls }
        ensures room { self.new.room ≡ self.old.room }
    {
        self.counted.begin()?;
        Ok(self.kept.seen().len() as u64)
    }

    fn read_at(&mut self, at: u64, into: &mut [u8]) -> Result<usize, Failed>
        ensures bytes { Reads (⟦<MemDisk as Disk>⟧.trace self.old) (⟦<MemDisk as Disk>⟧.trace self.new) at into.new result }
        ensures moment { Passes (⟦<MemDisk as Disk>⟧.trace self.old) (⟦<MemDisk as Disk>⟧.trace self.new) (⟦<MemDisk as Disk>⟧.moment self.old) (⟦<MemDisk as Disk>⟧.moment self.new) }
        ensures counts { CountsOnce (⟦<MemDisk as Disk>⟧.faults self.old) (⟦<MemDisk as Disk>⟧.faults self.new) result }

        // A listed read fails, and no other: any other gives as much as there is room for.
        ensures listed { IsErr result ↔ FailsNext self.old.counted }
        ensures counted { CountsCall self.old.counted self.new.counted }
        ensures whole { IfOk result (λ count. count ≡ min (length into.old) (length (seen_of self.old.start self.old.calls) - at)) }
        ensures start { self.new.start ≡ self.old.start }
        ensures calls { self.new.calls ≡ self.old.calls }
        ensures room { self.new.room ≡ self.old.room }
    {
        self.counted.begin()?;
        Ok(copy_at(self.kept.seen(), at, into))
    }

    fn write_at(&mut self, at: u64, bytes: &[u8]) -> Result<(), Failed>
        ensures states { Writes (⟦<MemDisk as Disk>⟧.trace self.old) (⟦<MemDisk as Disk>⟧.trace self.new) at bytes.now result }
        ensures moment { Passes (⟦<MemDisk as Disk>⟧.trace self.old) (⟦<MemDisk as Disk>⟧.trace self.new) (⟦<MemDisk as Disk>⟧.moment self.old) (⟦<MemDisk as Disk>⟧.moment self.new) }
        ensures counts { CountsOnce (⟦<MemDisk as Disk>⟧.faults self.old) (⟦<MemDisk as Disk>⟧.faults self.new) result }

        // A listed write fails, and one that finds no memory, which changes nothing but the count. With room a listed one alone
        // fails, and has begun.
        ensures listed { FailsNext self.old.counted → IsErr result }
        ensures listed_alone { HasRoomForWrite at bytes.now self.old.calls self.old.room → IsErr result → FailsNext self.old.counted }
        ensures begun { HasRoomForWrite at bytes.now self.old.calls self.old.room → IsErr result →
            self.new.calls ≡ self.old.calls ++ DiskCall.Write at bytes.now false ∷ [] }
        ensures counted { CountsCall self.old.counted self.new.counted }
        ensures kept { Keeps self.old.calls self.new.calls (DiskCall.Write at bytes.now) result }
        ensures unlisted { IsErr result → (FailsNext self.old.counted → ⊥) → self.new.calls ≡ self.old.calls }
        ensures start { self.new.start ≡ self.old.start }
        ensures leaves { LeavesRoom self.old.room self.new.room }
    {
        let answer = self.counted.begin();
        let kept = self.kept.write(self.alloc, at, bytes, answer.is_ok());
        if kept.is_ok() {
            return answer;
        }
        answer?;
        Err(self.counted.fault())
    }

    fn sync(&mut self) -> Result<(), Failed>
        ensures states { Syncs (⟦<MemDisk as Disk>⟧.trace self.old) (⟦<MemDisk as Disk>⟧.trace self.new) result }
        ensures moment { Passes (⟦<MemDisk as Disk>⟧.trace self.old) (⟦<MemDisk as Disk>⟧.trace self.new) (⟦<MemDisk as Disk>⟧.moment self.old) (⟦<MemDisk as Disk>⟧.moment self.new) }
        ensures counts { CountsOnce (⟦<MemDisk as Disk>⟧.faults self.old) (⟦<MemDisk as Disk>⟧.faults self.new) result }

        // A listed sync fails, and one that finds no memory, which changes nothing but the count. With room a listed one alone
        // fails, and has begun.
        ensures listed { FailsNext self.old.counted → IsErr result }
        ensures listed_alone { HasRoomForCall self.old.calls self.old.room → IsErr result → FailsNext self.old.counted }
        ensures begun { HasRoomForCall self.old.calls self.old.room → IsErr result → self.new.calls ≡ self.old.calls ++ DiskCall.Sync false ∷ [] }
        ensures counted { CountsCall self.old.counted self.new.counted }
        ensures kept { Keeps self.old.calls self.new.calls DiskCall.Sync result }
        ensures unlisted { IsErr result → (FailsNext self.old.counted → ⊥) → self.new.calls ≡ self.old.calls }
        ensures start { self.new.start ≡ self.old.start }
        ensures leaves { LeavesRoom self.old.room self.new.room }
    {
        let answer = self.counted.begin();
        let kept = self.kept.sync(answer.is_ok());
        if kept.is_ok() {
            return answer;
        }
        answer?;
        Err(self.counted.fault())
    }

    #[tactic(auto, using(crate::proofs::Replay::stand_states))]
    fn stand(&self) -> Stand
        ensures moment { result.moment ≡ ⟦<MemDisk as Disk>⟧.moment self.now }
        ensures faults { result.faults ≡ ⟦<MemDisk as Disk>⟧.faults self.now }
        ensures states { WhereKnown (⟦<MemDisk as Disk>⟧.trace self.now) (λ states. length states ≡ result.moment + 1) }
        ensures image { WhereKnown (⟦<MemDisk as Disk>⟧.trace self.now) (λ states. IsCrashImage (present states) (present states).seen) }
    {
        Stand {
            moment: self.kept.moment(),
            faults: self.counted.faults(),
        }
    }
}
