//! A source in memory.

ghost use Rattle.std.specs.Prelude.{◌≡◌, ◌↔◌, ◌+◌, ◌-◌, ◌<◌, ◌≤◌, [], length, min, IfOk, OnOk, IsErr, IsSomeAnd, flat_map, Some, None};
ghost use Rattle.farm_base.specs.Counts.{Counts};
ghost use Rattle.farm_ports.specs.Ports.{TakeGives, TakesFront};
ghost use Rattle.farm_ports.specs.Pieces.{at_offset, end_after, ends_from};

use crate::failing_calls::FailingCalls;
use crate::{Failed, Port, Source};
use farm_base::NoMemory;
use std::alloc::Global;
use std::marker::Model;

/// A source that gives bytes in memory piece by piece, and fails the takes that it has in a list.
///
/// A take gives at most the rest of one piece. An empty piece is passed over, so 0 for a buffer with room is the end.
#[derive(Drop)]
pub struct Script {
    bytes: Vec<u8>,
    ends: Vec<usize>,
    offset: usize,
    calls: FailingCalls,
}

impl Model for Script {
    ghost use Rattle.std.specs.Prelude.{◌≤◌, vec_len};
    ghost use Rattle.farm_ports.specs.Objects.{ScriptState};

    ghost Value = { ScriptState };

    ghost view = { λ script. record { bytes = script.bytes.items; ends = script.ends.items; taken = script.offset; calls = script.calls } };

    ghost invariant = { λ script. script.offset ≤ vec_len script.bytes };
}

impl Script {
    ghost use Rattle.farm_ports.specs.Objects.{no_calls};

    /// A source of these pieces, one after another, whose takes of these numbers, counted from 1, fail.
    pub fn new(alloc: Global, pieces: Vec<Vec<u8>>, fails: Vec<u64>) -> Result<Self, NoMemory>
        ensures known { IfOk result (λ script. ⟦<Script as Port>⟧.stream script
            ≡ Some (record { taken = []; left = flat_map (λ piece. piece.items) pieces.items })) }
        ensures ends { IfOk result (λ script. script.ends ≡ ends_from 0 pieces.items) }
        ensures faults { IfOk result (λ script. ⟦<Script as Port>⟧.faults script ≡ 0) }
        ensures calls { IfOk result (λ script. script.calls ≡ no_calls fails.items) }
    {
        let (bytes, ends) = joined(alloc, &pieces)?;
        Ok(Script {
            bytes,
            ends,
            offset: 0,
            calls: FailingCalls::new(fails),
        })
    }

    /// The bytes that were taken from it.
    pub fn taken(&self) -> &[u8]
        ensures known { IsSomeAnd (⟦<Script as Port>⟧.stream self.now) (λ stream. stream.taken ≡ result.now) }
    {
        &self.bytes[..self.offset]
    }

    /// The bytes that are left in it.
    pub fn left(&self) -> &[u8]
        ensures known { IsSomeAnd (⟦<Script as Port>⟧.stream self.now) (λ stream. stream.left ≡ result.now) }
    {
        &self.bytes[self.offset..]
    }

    /// How many of its takes failed; the count stands still at the last `u64`.
    pub fn faults(&self) -> u64
        ensures faults { result ≡ ⟦<Script as Port>⟧.faults self.now }
    {
        self.calls.faults()
    }
}

impl Port for Script {
    ghost stream = { λ script. Some (at_offset script.taken script.bytes) };

    ghost held = { λ _. None };

    ghost faults = { λ script. script.calls.faults };
}

impl Source for Script {
    ghost use Rattle.farm_ports.specs.Objects.{CountsCall, FailsNext};

    fn take(&mut self, into: &mut [u8]) -> Result<usize, Failed>
        ensures bytes { TakeGives (⟦<Script as Port>⟧.stream self.old) (⟦<Script as Port>⟧.stream self.new) into.new result }
        ensures held { ⟦<Script as Port>⟧.held self.new ≡ ⟦<Script as Port>⟧.held self.old }
        ensures counts { Counts (⟦<Script as Port>⟧.faults self.old) (⟦<Script as Port>⟧.faults self.new) result }

        // Only a listed take fails, and any other gives the rest of a piece, or as much as there is room for.
        ensures listed { IsErr result ↔ FailsNext self.old.calls }
        ensures counted { CountsCall self.old.calls self.new.calls }
        ensures piece { IfOk result (λ count. count
            ≡ min (length into.new) (end_after self.old.taken (length self.old.bytes) self.old.ends - self.old.taken)) }
        ensures ends { self.new.ends ≡ self.old.ends }
    {
        self.calls.begin()?;
        let end = end_after(&self.ends, self.offset, self.bytes.len());
        let count = copy_piece(&self.bytes, self.offset, end, into);
        self.offset += count;
        Ok(count)
    }
}

// Copies the bytes from `offset` to `end` into the front of a buffer, as many as it has room for, and says how many.
fn copy_piece(bytes: &[u8], offset: usize, end: usize, into: &mut [u8]) -> usize
    requires from { offset ≤ end }
    requires within { end ≤ length bytes.now }
    requires some { offset < length bytes.now → offset < end }
    ensures taken { TakesFront (Some (at_offset offset bytes.now)) (Some (at_offset (offset + result) bytes.now)) into.new result }
    ensures count { result ≡ min (length into.new) (end - offset) }
{
    let count = into.len().min(end - offset);
    into[..count].copy_from_slice(&bytes[offset..offset + count]);
    count
}

// The bytes of the pieces, one after another, and where each piece ends.
fn joined(alloc: Global, pieces: &[Vec<u8>]) -> Result<(Vec<u8>, Vec<usize>), NoMemory>
    ensures bytes { IfOk result (λ made. made.0.items ≡ flat_map (λ piece. piece.items) pieces.now) }
    ensures ends { IfOk result (λ made. made.1.items ≡ ends_from 0 pieces.now) }
{
    let mut bytes = Vec::new(alloc);
    let mut ends = Vec::new(alloc);
    for piece in pieces {
        bytes.extend_from_slice(piece)?;
        ends.push(bytes.len())?;
    }
    Ok((bytes, ends))
}

// Where the piece ends in which the byte at `offset` stands, or where all bytes end.
fn end_after(ends: &[usize], offset: usize, all: usize) -> usize
    requires { offset ≤ all }
    ensures end { result ≡ end_after offset all ends.now }
    ensures from { offset ≤ result }
    ensures within { result ≤ all }
    ensures some { offset < all → offset < result }
{
    for end in ends {
        if offset < *end {
            return all.min(*end);
        }
    }
    all
}
