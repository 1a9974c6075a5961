//! A listener in memory.

ghost use Rattle.std.specs.Prelude.{◌≡◌, ◌<◌, ◌≤◌, ◌+◌, [], drop, filter, map, IfOk, IsErr, IsOk, IsSome, MatchResult, OnOk, Some, if◌then◌else◌, is_ok};
ghost use Rattle.farm_base.specs.Counts.{Counts};
ghost use Rattle.farm_base.specs.Known.{WhereKnown};
ghost use Rattle.farm_ports.specs.Objects.{CountsCall, FailsNext};
ghost use Rattle.farm_listeners.specs.Listeners.{Accepts, AddsAccepted, HandsBack, IfCame, IsFreshConnection, Listens, connection_of, left_of, ports_of};
ghost use Rattle.farm_listeners.specs.Objects.{known_talk};
ghost use Rattle.farm_listeners.specs.Visits.{answer_at, is_new};

use crate::kept_events::KeptEvents;
use crate::{Accepted, Listener, Talk, Visit};
use farm_base::NoMemory;
use farm_ports::{Failed, FailingCalls, Port};
use std::alloc::Global;
use std::marker::Model;
use std::vec::IntoIter;

/// A listener in memory: each accept that doesn't fail gives the next of its items, and it keeps its events.
///
/// Listens and accepts are numbered together, from 1. One whose number is listed fails, and so does one that finds no memory; an
/// accept that fails uses up no item. After a listen that finds no memory to be kept the events aren't known. Each of these calls
/// that succeeds leaves room for one connection to be handed back.
#[derive(Drop)]
pub struct Visits {
    items: IntoIter<Visit>,
    kept: KeptEvents,
    calls: FailingCalls,
}

impl Model for Visits {
    ghost use Rattle.std.specs.Prelude.{◌≡◌, All, true};
    ghost use Rattle.std.specs.Vec.Iter.{into_iter_items};
    ghost use Rattle.farm_listeners.specs.Visits.{VisitsState, is_new};

    ghost Value = { VisitsState };

    ghost view = { λ visits. record {
      events = visits.kept.events;
      room = visits.kept.room;
      items = into_iter_items visits.items;
      calls = visits.calls;
    } };

    ghost invariant = { λ visits. All (λ item. is_new item ≡ true) (into_iter_items visits.items) };
}

impl Visits {
    ghost use Rattle.farm_ports.specs.Objects.{no_calls};

    /// A listener that gives these items, one to each accept, and whose listens and accepts of these numbers fail.
    ///
    /// A connection that was used before is no new one, and is left out. Takes no memory.
    pub fn new(alloc: Global, mut items: Vec<Visit>, fails: Vec<u64>) -> Result<Self, NoMemory>
        ensures made { IsOk result }
        ensures known { IfOk result (λ visits. ⟦<Visits as Listener>⟧.events visits ≡ Some []) }
        ensures faults { IfOk result (λ visits. ⟦<Visits as Listener>⟧.faults visits ≡ 0) }
        ensures items { IfOk result (λ visits. visits.items ≡ filter is_new items.items) }
        ensures calls { IfOk result (λ visits. visits.calls ≡ no_calls fails.items) }
    {
        items.retain(|item| item.is_new());
        Ok(Visits {
            items: items.into_iter(),
            kept: KeptEvents::new(alloc),
            calls: FailingCalls::new(fails),
        })
    }

    /// The ports that it was asked to listen on, those of failed calls among them, in order.
    pub fn ports(&self) -> &[u16]
        ensures known { WhereKnown (⟦<Visits as Listener>⟧.events self.now) (λ events. ports_of events ≡ result.now) }
    {
        self.kept.ports()
    }

    /// The connections that were handed back, in order.
    pub fn talks(&self) -> &[Talk]
        ensures known { WhereKnown (⟦<Visits as Listener>⟧.events self.now) (λ events. left_of events
            ≡ map (connection_of ⟦<Talk as Port>⟧.stream ⟦<Talk as Port>⟧.held ⟦<Talk as Port>⟧.faults) result.now) }
    {
        self.kept.talks()
    }

    /// How many of its calls failed; the count stands still at the last `u64`.
    pub fn faults(&self) -> u64
        ensures faults { result ≡ ⟦<Visits as Listener>⟧.faults self.now }
    {
        self.calls.faults()
    }

    // Uses up the next item, and keeps what an accept answers at it.
    fn next_item(&mut self) -> Accepted<Talk>
        ensures event { AddsAccepted self.old.events self.new.events result }
        ensures fresh { IfCame result (λ talk. IsFreshConnection (known_talk talk)) }
        ensures item { result ≡ answer_at self.old.items }
        ensures items { self.new.items ≡ drop 1 self.old.items }
        ensures kept { 0 < self.old.room → IsSome self.old.events → IsSome self.new.events }
        ensures room { self.old.room ≤ self.new.room + 1 }
        ensures calls { self.new.calls ≡ self.old.calls }
    {
        match self.items.next() {
            None => {
                self.kept.ended();
                Accepted::End
            }
            Some(Visit::Idle) => Accepted::Idle,
            Some(Visit::Conn(talk)) => {
                self.kept.came();
                Accepted::Conn(talk)
            }
        }
    }
}

impl Listener for Visits {
    type Conn = Talk;

    ghost events = { λ visits. visits.events };

    ghost faults = { λ visits. visits.calls.faults };

    fn listen(&mut self, port: u16) -> Result<(), Failed>
        ensures event { Listens (⟦<Visits as Listener>⟧.events self.old) (⟦<Visits as Listener>⟧.events self.new) port result }
        ensures counts { Counts (⟦<Visits as Listener>⟧.faults self.old) (⟦<Visits as Listener>⟧.faults self.new) result }

        // A listed listen fails, and one that finds no memory: with room a listed one alone, and each is kept.
        ensures listed { FailsNext self.old.calls → IsErr result }
        ensures listed_alone { 2 ≤ self.old.room → IsErr result → FailsNext self.old.calls }
        ensures counted { CountsCall self.old.calls self.new.calls }
        ensures kept { IsSome self.old.events → IsOk result → IsSome self.new.events }
        ensures kept_in_room { 2 ≤ self.old.room → IsSome self.old.events → IsSome self.new.events }
        ensures room { MatchResult result (λ _. 0 < self.new.room) (λ _. IsSome self.new.events → 0 < self.new.room) }
        ensures items { self.new.items ≡ self.old.items }
    {
        let answer = self.calls.begin();
        if self.kept.make_room().is_ok() {
            self.kept.listened(port, answer.is_err());
            return answer;
        }
        self.kept.forget();
        answer?;
        Err(self.calls.fault())
    }

    fn accept(&mut self) -> Result<Accepted<Talk>, Failed>
        ensures event { Accepts (⟦<Visits as Listener>⟧.events self.old) (⟦<Visits as Listener>⟧.events self.new) result }
        ensures fresh { IfOk result (λ accepted. IfCame accepted (λ talk.
            IsFreshConnection (connection_of ⟦<Talk as Port>⟧.stream ⟦<Talk as Port>⟧.held ⟦<Talk as Port>⟧.faults talk))) }
        ensures counts { Counts (⟦<Visits as Listener>⟧.faults self.old) (⟦<Visits as Listener>⟧.faults self.new) result }

        // A listed accept fails, and one that finds no memory: with room a listed one alone. Any other answers what the next item
        // says: idle exactly at an idle place, and the end exactly after the last item.
        ensures listed { FailsNext self.old.calls → IsErr result }
        ensures listed_alone { 2 ≤ self.old.room → IsErr result → FailsNext self.old.calls }
        ensures counted { CountsCall self.old.calls self.new.calls }
        ensures item { IfOk result (λ accepted. accepted ≡ answer_at self.old.items) }
        ensures items { self.new.items ≡ (if is_ok result then drop 1 self.old.items else self.old.items) }
        ensures kept { IsSome self.old.events → IsSome self.new.events }
        ensures room { MatchResult result (λ _. 0 < self.new.room) (λ _. self.old.room ≤ self.new.room) }
    {
        self.calls.begin()?;
        if self.kept.make_room().is_err() {
            return Err(self.calls.fault());
        }
        Ok(self.next_item())
    }

    fn done(&mut self, conn: Talk)
        ensures event { HandsBack (⟦<Visits as Listener>⟧.events self.old) (⟦<Visits as Listener>⟧.events self.new)
            (connection_of ⟦<Talk as Port>⟧.stream ⟦<Talk as Port>⟧.held ⟦<Talk as Port>⟧.faults conn) }
        ensures faults { ⟦<Visits as Listener>⟧.faults self.new ≡ ⟦<Visits as Listener>⟧.faults self.old }

        // It is kept where there is room for it.
        ensures kept { 0 < self.old.room → IsSome self.old.events → IsSome self.new.events }
        ensures room { self.old.room ≤ self.new.room + 1 }
        ensures calls { self.new.calls ≡ self.old.calls }
        ensures items { self.new.items ≡ self.old.items }
    {
        self.kept.left(conn);
    }
}
