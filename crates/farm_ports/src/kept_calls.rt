//! The calls that a link in memory took, as long as there is memory to keep each.

ghost use Rattle.std.specs.Prelude.{◌≡◌, ◌≤◌, ◌+◌, [], ◌∷◌, IfOk, IsOk, IsErr, IsSome, None, OnErr, OnOk, Some, length};
ghost use Rattle.farm_base.specs.Known.{WhereKnown};
ghost use Rattle.farm_ports.specs.Copies.{FitsCopy, TakesOne};
ghost use Rattle.farm_ports.specs.Links.{AddsCalls};
ghost use Rattle.farm_ports.specs.Wires.{CanKeep, HasRoom};

use crate::copy_room::CopyRoom;
use crate::{Bytes, LinkCall};
use farm_base::NoMemory;
use std::alloc::Global;
use std::marker::Model;

/// The calls in their order. Where one finds no memory they aren't known from then on.
#[derive(Drop)]
pub struct KeptCalls {
    calls: Vec<LinkCall>,
    known: bool,
    copies: CopyRoom,
}

impl Model for KeptCalls {
    ghost use Rattle.std.specs.Prelude.{if◌then◌else◌, Some, None, vec_capacity};
    ghost use Rattle.farm_ports.specs.Wires.{KeptState};

    ghost Value = { KeptState };

    ghost view = { λ kept. record { calls = if kept.known then Some kept.calls.items else None; room = vec_capacity kept.calls; copies = kept.copies } };
}

impl KeptCalls {
    /// No call yet, and room for one pause.
    pub(crate) fn new(alloc: Global) -> Result<Self, NoMemory>
        ensures known { IfOk result (λ kept. kept.calls ≡ Some []) }
        ensures room { IfOk result (λ kept. HasRoom 1 kept.calls kept.room) }
    {
        Ok(KeptCalls {
            calls: Vec::with_capacity(alloc, 1)?,
            known: true,
            copies: CopyRoom::none(alloc),
        })
    }

    /// The calls, where they are known.
    pub(crate) fn get(&self) -> &[LinkCall]
        ensures known { WhereKnown self.now.calls (λ calls. calls ≡ result.now) }
    {
        &self.calls
    }

    /// Makes room for this many calls and for one pause after them, and for this many bytes of each.
    ///
    /// Room for bytes that was there before is given up. Where there is no memory all stays as it was.
    pub(crate) fn reserve(
        &mut self,
        alloc: Global,
        calls: usize,
        size: usize,
    ) -> Result<(), NoMemory>
        ensures room { OnOk result (HasRoom (calls + 1) self.new.calls self.new.room) }
        ensures count { OnOk result (self.new.copies.count ≡ calls) }
        ensures size { OnOk result (self.new.copies.size ≡ size) }
        ensures stays { self.new.calls ≡ self.old.calls }
        ensures grows { self.old.room ≤ self.new.room }
        ensures err { OnErr result (self.new.copies ≡ self.old.copies) }
    {
        let copies = CopyRoom::new(alloc, calls, size)?;
        let more = calls.checked_add(1).ok_or(NoMemory)?;
        self.calls.reserve(more)?;
        self.copies = copies;
        Ok(())
    }

    /// Makes room for a call and for one pause after it.
    pub(crate) fn make_room(&mut self) -> Result<(), NoMemory>
        ensures room { OnOk result (HasRoom 2 self.new.calls self.new.room) }
        ensures stays { OnOk result (self.new.calls ≡ self.old.calls) }
        ensures forgotten { IsErr result → self.new.calls ≡ None }
        ensures there { CanKeep 2 self.old.calls self.old.room → IsOk result }
        ensures grows { self.old.room ≤ self.new.room }
        ensures copies { self.new.copies ≡ self.old.copies }
    {
        let made = self.calls.reserve(2);
        if made.is_err() {
            self.known = false;
        }
        Ok(made?)
    }

    /// Makes room for a call and for one pause after it, and copies the bytes of the call.
    pub(crate) fn copy(&mut self, alloc: Global, bytes: &[u8]) -> Result<Bytes, NoMemory>
        ensures copied { IfOk result (λ copy. copy ≡ bytes.now) }
        ensures room { IsOk result → HasRoom 2 self.new.calls self.new.room }
        ensures stays { IsOk result → self.new.calls ≡ self.old.calls }
        ensures forgotten { IsErr result → self.new.calls ≡ None }
        ensures there { CanKeep 2 self.old.calls self.old.room → FitsCopy (length bytes.now) self.old.copies → IsOk result }
        ensures grows { self.old.room ≤ self.new.room }
        ensures one { TakesOne self.old.copies self.new.copies }
    {
        self.make_room()?;
        let copied = self.copies.copy(alloc, bytes);
        if copied.is_err() {
            self.known = false;
        }
        Ok(Bytes::new(copied?))
    }

    /// Keeps a call where there is room for it. Takes no memory.
    pub(crate) fn push(&mut self, call: LinkCall)
        ensures added { AddsCalls self.old.calls self.new.calls (call ∷ []) }
        ensures known { CanKeep 1 self.old.calls self.old.room → IsSome self.new.calls }
        ensures room { HasRoom 2 self.old.calls self.old.room → HasRoom 1 self.new.calls self.new.room }
        ensures grows { self.old.room ≤ self.new.room }
        ensures copies { self.new.copies ≡ self.old.copies }
    {
        let has_room = self.calls.len() < self.calls.capacity();
        self.known = self.known && has_room && self.calls.push(call).is_ok();
    }

    /// Makes room for a call that moved no bytes and for one pause after it, and keeps the call.
    pub(crate) fn keep(&mut self, call: LinkCall)
        ensures added { AddsCalls self.old.calls self.new.calls (call ∷ []) }
        ensures known { CanKeep 2 self.old.calls self.old.room → IsSome self.new.calls }
        ensures room { HasRoom 1 self.new.calls self.new.room }
        ensures grows { self.old.room ≤ self.new.room }
        ensures copies { self.new.copies ≡ self.old.copies }
    {
        if self.make_room().is_ok() {
            self.push(call);
        }
    }
}
