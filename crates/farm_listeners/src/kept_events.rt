//! The events that a listener in memory has seen, as long as there is memory to keep each.

ghost use Rattle.std.specs.Prelude.{◌≡◌, ◌↔◌, ◌<◌, ◌≤◌, ◌+◌, [], ◌∷◌, map, IsOk, IsSome, IsTrue, None, OnOk, Some};
ghost use Rattle.farm_base.specs.Known.{WhereKnown};
ghost use Rattle.farm_listeners.specs.Listeners.{AddsEvents, Listened, Came, Left, Ended, left_of, ports_of};
ghost use Rattle.farm_listeners.specs.Objects.{known_talk};

use crate::Talk;
use farm_base::NoMemory;
use std::alloc::Global;
use std::marker::Model;

/// What kind an event is of. Its port or its connection stands in a list of its own.
#[derive(Clone, Copy, Debug)]
pub enum Kind {
    /// The listener was asked to listen, and whether it failed.
    Listened { failed: bool },
    /// A connection came.
    Came,
    /// A connection was handed back.
    Left,
    /// The listener answered that no more will come.
    Ended,
}

/// The kinds of the events in their order, their ports, and the connections that were handed back. Where an event finds no memory
/// they aren't known from then on.
#[derive(Drop)]
pub struct KeptEvents {
    kinds: Vec<Kind>,
    ports: Vec<u16>,
    talks: Vec<Talk>,
    known: bool,
}

impl Model for KeptEvents {
    ghost use Rattle.std.specs.Prelude.{if◌then◌else◌, min, None, Some};
    ghost use Rattle.farm_listeners.specs.Visits.{EventsState, InStep, events_of, spare};

    ghost Value = { EventsState };

    ghost view = { λ kept. record {
      events = if kept.known then Some (events_of kept.kinds.items kept.ports.items kept.talks.items) else None;
      room = min (spare kept.kinds) (min (spare kept.ports) (spare kept.talks));
    } };

    ghost invariant = { λ kept. InStep kept.kinds.items kept.ports.items kept.talks.items };
}

impl KeptEvents {
    /// No event yet, and no memory taken.
    pub(crate) fn new(alloc: Global) -> Self
        ensures known { result.events ≡ Some [] }
    {
        KeptEvents {
            kinds: Vec::new(alloc),
            ports: Vec::new(alloc),
            talks: Vec::new(alloc),
            known: true,
        }
    }

    /// The ports that the listener was asked to listen on.
    pub(crate) fn ports(&self) -> &[u16]
        ensures known { WhereKnown self.now.events (λ events. ports_of events ≡ result.now) }
    {
        &self.ports
    }

    /// The connections that were handed back.
    pub(crate) fn talks(&self) -> &[Talk]
        ensures known { WhereKnown self.now.events (λ events. left_of events ≡ map known_talk result.now) }
    {
        &self.talks
    }

    /// Makes room for two events more. Where there is no memory the events stay as they were.
    pub(crate) fn make_room(&mut self) -> Result<(), NoMemory>
        ensures room { OnOk result (2 ≤ self.new.room) }
        ensures there { 2 ≤ self.old.room → IsOk result }
        ensures events { self.new.events ≡ self.old.events }
        ensures grows { self.old.room ≤ self.new.room }
    {
        self.kinds.reserve(2)?;
        self.ports.reserve(2)?;
        self.talks.reserve(2)?;
        Ok(())
    }

    /// There is room for an event of any kind.
    fn has_room(&self) -> bool
        ensures { IsTrue result ↔ (0 < self.now.room) }
    {
        self.kinds.len() < self.kinds.capacity()
            && self.ports.len() < self.ports.capacity()
            && self.talks.len() < self.talks.capacity()
    }

    /// An event couldn't be kept.
    pub(crate) fn forget(&mut self)
        ensures forgotten { self.new.events ≡ None }
        ensures room { self.new.room ≡ self.old.room }
    {
        self.known = false;
    }

    /// Keeps, where there is room, that the listener was asked to listen on a port.
    pub(crate) fn listened(&mut self, port: u16, failed: bool)
        ensures added { AddsEvents self.old.events self.new.events (Listened port failed ∷ []) }
        ensures kept { 0 < self.old.room → IsSome self.old.events → IsSome self.new.events }
        ensures room { self.old.room ≤ self.new.room + 1 }
    {
        if !self.has_room() {
            return self.forget();
        }
        let _ = self.kinds.push(Kind::Listened { failed });
        let _ = self.ports.push(port);
    }

    /// Keeps, where there is room, that a connection came.
    pub(crate) fn came(&mut self)
        ensures added { AddsEvents self.old.events self.new.events (Came ∷ []) }
        ensures kept { 0 < self.old.room → IsSome self.old.events → IsSome self.new.events }
        ensures room { self.old.room ≤ self.new.room + 1 }
    {
        if !self.has_room() {
            return self.forget();
        }
        let _ = self.kinds.push(Kind::Came);
    }

    /// Keeps, where there is room, that a connection was handed back. Takes no memory.
    pub(crate) fn left(&mut self, talk: Talk)
        ensures added { AddsEvents self.old.events self.new.events (Left (known_talk talk) ∷ []) }
        ensures kept { 0 < self.old.room → IsSome self.old.events → IsSome self.new.events }
        ensures room { self.old.room ≤ self.new.room + 1 }
    {
        if !self.has_room() {
            return self.forget();
        }
        let _ = self.kinds.push(Kind::Left);
        let _ = self.talks.push(talk);
    }

    /// Keeps, where there is room, that no more connections will come.
    pub(crate) fn ended(&mut self)
        ensures added { AddsEvents self.old.events self.new.events (Ended ∷ []) }
        ensures kept { 0 < self.old.room → IsSome self.old.events → IsSome self.new.events }
        ensures room { self.old.room ≤ self.new.room + 1 }
    {
        if !self.has_room() {
            return self.forget();
        }
        let _ = self.kinds.push(Kind::Ended);
    }
}
