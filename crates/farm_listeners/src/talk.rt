//! A connection in memory.

ghost use Rattle.std.specs.Prelude.{◌≡◌, ◌↔◌, ◌⊎◌, ◌+◌, ◌-◌, ◌<◌, ◌≤◌, [], flat_map, length, min, IfOk, IsErr, IsSomeAnd, OnOk, Some};
ghost use Rattle.farm_base.specs.Counts.{Counts};
ghost use Rattle.farm_ports.specs.Pieces.{end_after, ends_from};
ghost use Rattle.farm_ports.specs.Ports.{PutGives, TakeGives};
ghost use Rattle.farm_listeners.specs.Objects.{is_new_talk};

use farm_base::NoMemory;
use farm_ports::{Failed, Gather, Port, Script, Sink, Source};
use std::alloc::Global;
use std::marker::Model;

/// A connection in memory: it gives bytes piece by piece, keeps what is put, and fails the calls that it has in two lists.
///
/// Takes and puts are numbered apart, each from 1. A take gives at most the rest of one piece, and 0 at the end of all; a put takes
/// the whole piece, or finds no memory, which is a fault. A call that fails moves nothing. Its faults are one count, those of takes
/// and of puts together, up to the last `u64`.
#[derive(Drop)]
pub struct Talk {
    source: Script,
    sink: Gather,
}

impl Model for Talk {
    ghost use Rattle.farm_listeners.specs.Objects.{TalkState};

    ghost Value = { TalkState };

    ghost view = { λ talk. record { source = talk.source; sink = talk.sink } };
}

impl Talk {
    ghost use Rattle.farm_ports.specs.Objects.{no_calls};

    /// A connection that gives these pieces, one after another, and fails the takes and the puts of these numbers.
    pub fn new(
        alloc: Global,
        pieces: Vec<Vec<u8>>,
        bad_takes: Vec<u64>,
        bad_puts: Vec<u64>,
    ) -> Result<Self, NoMemory>
        ensures known { IfOk result (λ talk. ⟦<Talk as Port>⟧.stream talk
            ≡ Some (record { taken = []; left = flat_map (λ piece. piece.items) pieces.items })) }
        ensures empty { IfOk result (λ talk. ⟦<Talk as Port>⟧.held talk ≡ Some []) }
        ensures faults { IfOk result (λ talk. ⟦<Talk as Port>⟧.faults talk ≡ 0) }
        ensures ends { IfOk result (λ talk. talk.source.ends ≡ ends_from 0 pieces.items) }
        ensures takes { IfOk result (λ talk. talk.source.calls ≡ no_calls bad_takes.items) }
        ensures puts { IfOk result (λ talk. talk.sink.calls ≡ no_calls bad_puts.items) }
    {
        let source = Script::new(alloc, pieces, bad_takes)?;
        let sink = Gather::new(alloc, bad_puts)?;
        Ok(Talk { source, sink })
    }

    /// The bytes that were taken from it.
    pub fn taken(&self) -> &[u8]
        ensures known { IsSomeAnd (⟦<Talk as Port>⟧.stream self.now) (λ stream. stream.taken ≡ result.now) }
    {
        self.source.taken()
    }

    /// The bytes that were put.
    pub fn written(&self) -> &[u8]
        ensures known { ⟦<Talk as Port>⟧.held self.now ≡ Some result.now }
    {
        self.sink.bytes()
    }

    /// How many of its takes and puts failed; the count stands still at the last `u64`.
    pub fn faults(&self) -> u64
        ensures faults { result ≡ ⟦<Talk as Port>⟧.faults self.now }
    {
        self.source.faults().saturating_add(self.sink.faults())
    }

    // No byte was taken from it or put, and no call failed.
    pub(crate) fn is_new(&self) -> bool
        ensures { result ≡ is_new_talk self.now }
    {
        self.taken().is_empty() && self.written().is_empty() && self.faults() == 0
    }
}

impl Port for Talk {
    ghost use Rattle.std.specs.Prelude.{Some};
    ghost use Rattle.farm_ports.specs.Pieces.{at_offset};
    ghost use Rattle.farm_listeners.specs.Objects.{talk_faults};

    ghost stream = { λ talk. Some (at_offset talk.source.taken talk.source.bytes) };

    ghost held = { λ talk. Some talk.sink.bytes };

    ghost faults = { talk_faults };
}

impl Source for Talk {
    ghost use Rattle.farm_ports.specs.Objects.{CountsCall, FailsNext};

    fn take(&mut self, into: &mut [u8]) -> Result<usize, Failed>
        ensures bytes { TakeGives (⟦<Talk as Port>⟧.stream self.old) (⟦<Talk as Port>⟧.stream self.new) into.new result }
        ensures held { ⟦<Talk as Port>⟧.held self.new ≡ ⟦<Talk as Port>⟧.held self.old }
        ensures counts { Counts (⟦<Talk as Port>⟧.faults self.old) (⟦<Talk as Port>⟧.faults self.new) result }

        // Only a listed take fails, and any other gives the rest of a piece, or as much as there is room for.
        ensures listed { IsErr result ↔ FailsNext self.old.source.calls }
        ensures counted { CountsCall self.old.source.calls self.new.source.calls }
        ensures piece { IfOk result (λ count. count
            ≡ min (length into.new) (end_after self.old.source.taken (length self.old.source.bytes) self.old.source.ends - self.old.source.taken)) }
        ensures ends { self.new.source.ends ≡ self.old.source.ends }
        ensures sink { self.new.sink ≡ self.old.sink }
    {
        self.source.take(into)
    }
}

impl Sink for Talk {
    ghost use Rattle.farm_ports.specs.Objects.{CountsCall, FailsNext};

    fn put(&mut self, bytes: &[u8]) -> Result<usize, Failed>
        ensures bytes { PutGives (⟦<Talk as Port>⟧.held self.old) (⟦<Talk as Port>⟧.held self.new) bytes.now result }
        ensures stream { ⟦<Talk as Port>⟧.stream self.new ≡ ⟦<Talk as Port>⟧.stream self.old }
        ensures counts { Counts (⟦<Talk as Port>⟧.faults self.old) (⟦<Talk as Port>⟧.faults self.new) result }

        // A listed put fails; any other takes the whole piece, or finds no memory.
        ensures listed { FailsNext self.old.sink.calls → IsErr result }
        ensures room { IsErr result → FailsNext self.old.sink.calls ⊎ (self.old.sink.room < length self.old.sink.bytes + length bytes.now) }
        ensures whole { IfOk result (λ count. count ≡ length bytes.now) }
        ensures counted { CountsCall self.old.sink.calls self.new.sink.calls }
        ensures grows { self.old.sink.room ≤ self.new.sink.room }
        ensures source { self.new.source ≡ self.old.source }
    {
        self.sink.put(bytes)
    }
}
