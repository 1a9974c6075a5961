//! A link in memory.

ghost use Rattle.std.specs.Prelude.{◌≡◌, ◌⊎◌, ◌≤◌, ◌+◌, ◌++◌, [], ◌∷◌, drop, length, map, min, take, IfOk, IsErr, IsOk, IsSome, MatchResult, OnErr, OnOk, Some, if◌then◌else◌, is_ok};
ghost use Rattle.farm_base.specs.Counts.{Counts};
ghost use Rattle.farm_base.specs.Known.{WhereKnown};
ghost use Rattle.farm_ports.specs.Links.{AddsCalls, Connects, Receives, Sends};
ghost use Rattle.farm_ports.specs.Objects.{CountsCall, FailsNext};
ghost use Rattle.farm_ports.specs.Wires.{CanKeep, HasRoom, HasRoomFor, LeavesRoom, first_response, responses_after};

use crate::failing_calls::FailingCalls;
use crate::kept_calls::KeptCalls;
use crate::responses::Responses;
use crate::{Bytes, Failed, Link, LinkCall};
use farm_base::NoMemory;
use std::alloc::Global;
use std::marker::Model;

/// A link in memory: it gives a response to each send, keeps its calls, and fails those that it has in a list.
///
/// Connects, sends and receives are numbered together, from 1; a pause has no number. A call that finds no memory to be kept
/// fails and counts as a fault, and from then on the calls aren't known. A pause takes no memory: there is room for one after
/// each numbered call, and after two pauses in a row the calls may not be known. With room from `reserve` a listed call alone fails,
/// and a receive with nothing left.
#[derive(Drop)]
pub struct Wire {
    alloc: Global,
    kept: KeptCalls,
    responses: Responses,
    numbered: FailingCalls,
}

impl Model for Wire {
    ghost use Rattle.farm_ports.specs.Wires.{WireState};

    ghost Value = { WireState };

    ghost view = { λ wire. record {
      calls = wire.kept.calls;
      room = wire.kept.room;
      copies = wire.kept.copies;
      responses = wire.responses.coming;
      left = wire.responses.left;
      counted = wire.numbered;
    } };
}

impl Wire {
    ghost use Rattle.farm_ports.specs.Objects.{no_calls};

    /// A link with these responses, one to each send, whose connects, sends and receives of these numbers fail.
    ///
    /// A send after the last response has a response without a byte.
    pub fn new(alloc: Global, responses: Vec<Vec<u8>>, fails: Vec<u64>) -> Result<Self, NoMemory>
        ensures known { IfOk result (λ wire. ⟦<Wire as Link>⟧.calls wire ≡ Some []) }
        ensures room { IfOk result (λ wire. HasRoom 1 wire.calls wire.room) }
        ensures responses { IfOk result (λ wire. wire.responses ≡ map (λ response. response.items) responses.items) }
        ensures left { IfOk result (λ wire. wire.left ≡ []) }
        ensures faults { IfOk result (λ wire. ⟦<Wire as Link>⟧.faults wire ≡ 0) }
        ensures counted { IfOk result (λ wire. wire.counted ≡ no_calls fails.items) }
    {
        Ok(Wire {
            alloc,
            kept: KeptCalls::new(alloc)?,
            responses: Responses::new(alloc, responses),
            numbered: FailingCalls::new(fails),
        })
    }

    /// Its calls, in their order, where they are known.
    pub fn calls(&self) -> &[LinkCall]
        ensures known { WhereKnown (⟦<Wire as Link>⟧.calls self.now) (λ calls. calls ≡ result.now) }
    {
        self.kept.get()
    }

    /// How many of its calls failed; the count stands still at the last `u64`.
    pub fn faults(&self) -> u64
        ensures faults { result ≡ ⟦<Wire as Link>⟧.faults self.now }
    {
        self.numbered.faults()
    }

    /// Makes room for this many calls and for one pause after them, and for this many bytes of each.
    ///
    /// Room for bytes that was there before is given up. Where there is no memory all stays as it was.
    pub fn reserve(&mut self, calls: usize, size: usize) -> Result<(), NoMemory>
        ensures room { OnOk result (HasRoom (calls + 1) self.new.calls self.new.room) }
        ensures count { OnOk result (self.new.copies.count ≡ calls) }
        ensures size { OnOk result (self.new.copies.size ≡ size) }
        ensures calls { self.new.calls ≡ self.old.calls }
        ensures grows { self.old.room ≤ self.new.room }
        ensures err { OnErr result (self.new.copies ≡ self.old.copies) }
        ensures counted { self.new.counted ≡ self.old.counted }
        ensures responses { self.new.responses ≡ self.old.responses }
        ensures left { self.new.left ≡ self.old.left }
    {
        self.kept.reserve(self.alloc, calls, size)
    }

    // Counts a receive, and fails it where its number is listed or nothing is left.
    fn begin_recv(&mut self) -> Result<(), Failed>
        ensures listed { FailsNext self.old.counted → IsErr result }
        ensures nothing { self.old.left ≡ [] → IsErr result }
        ensures some { IsOk result → self.old.left ≡ [] → ⊥ }
        ensures only { IsErr result → FailsNext self.old.counted ⊎ (self.old.left ≡ []) }
        ensures counts { Counts self.old.counted.faults self.new.counted.faults result }
        ensures counted { CountsCall self.old.counted self.new.counted }
        ensures calls { self.new.calls ≡ self.old.calls }
        ensures room { self.new.room ≡ self.old.room }
        ensures copies { self.new.copies ≡ self.old.copies }
        ensures responses { self.new.responses ≡ self.old.responses }
        ensures left { self.new.left ≡ self.old.left }
    {
        self.numbered.begin()?;
        if self.responses.left().is_empty() {
            return Err(self.numbered.fault());
        }
        Ok(())
    }
}

impl Link for Wire {
    ghost calls = { λ wire. wire.calls };

    ghost faults = { λ wire. wire.counted.faults };

    fn connect(&mut self, host: &[u8], port: u16) -> Result<(), Failed>
        ensures call { Connects (⟦<Wire as Link>⟧.calls self.old) (⟦<Wire as Link>⟧.calls self.new) host.now port result }
        ensures counts { Counts (⟦<Wire as Link>⟧.faults self.old) (⟦<Wire as Link>⟧.faults self.new) result }

        // A listed connect fails, and one that finds no memory: with room a listed one alone. What was left to receive is
        // dropped in each case.
        ensures listed { FailsNext self.old.counted → IsErr result }
        ensures listed_alone { HasRoomFor (length host.now) self.old → IsErr result → FailsNext self.old.counted }
        ensures counted { CountsCall self.old.counted self.new.counted }
        ensures kept { IsSome self.old.calls → IsOk result → IsSome self.new.calls }
        ensures kept_in_room { HasRoomFor (length host.now) self.old → IsSome self.new.calls }
        ensures room { HasRoom 1 self.new.calls self.new.room }
        ensures leaves { LeavesRoom self.old self.new }
        ensures left { self.new.left ≡ [] }
        ensures responses { self.new.responses ≡ self.old.responses }
    {
        self.responses.drop_left();
        let answer = self.numbered.begin();
        if let Ok(host) = self.kept.copy(self.alloc, host) {
            self.kept.push(LinkCall::Connect {
                host,
                port,
                failed: answer.is_err(),
            });
            return answer;
        }
        answer?;
        Err(self.numbered.fault())
    }

    fn send(&mut self, bytes: &[u8]) -> Result<usize, Failed>
        ensures call { Sends (⟦<Wire as Link>⟧.calls self.old) (⟦<Wire as Link>⟧.calls self.new) bytes.now result }
        ensures counts { Counts (⟦<Wire as Link>⟧.faults self.old) (⟦<Wire as Link>⟧.faults self.new) result }

        // A listed send fails, and one that finds no memory: with room a listed one alone. Any other takes the whole piece and
        // turns to the next response.
        ensures listed { FailsNext self.old.counted → IsErr result }
        ensures listed_alone { HasRoomFor (length bytes.now) self.old → IsErr result → FailsNext self.old.counted }
        ensures counted { CountsCall self.old.counted self.new.counted }
        ensures kept { IsSome self.old.calls → IsOk result → IsSome self.new.calls }
        ensures kept_failed { CanKeep 2 self.old.calls self.old.room → FailsNext self.old.counted → IsSome self.new.calls }
        ensures kept_in_room { HasRoomFor (length bytes.now) self.old → IsSome self.new.calls }
        ensures room { HasRoom 1 self.new.calls self.new.room }
        ensures leaves { LeavesRoom self.old self.new }
        ensures whole { IfOk result (λ count. count ≡ length bytes.now) }
        ensures left { self.new.left ≡ (if is_ok result then first_response self.old.responses else self.old.left) }
        ensures responses { self.new.responses ≡ (if is_ok result then responses_after self.old.responses else self.old.responses) }
    {
        if let Err(failed) = self.numbered.begin() {
            self.kept.keep(LinkCall::Sent {
                bytes: Bytes::new(Vec::new(self.alloc)),
                failed: true,
            });
            return Err(failed);
        }
        let Ok(copy) = self.kept.copy(self.alloc, bytes) else {
            return Err(self.numbered.fault());
        };
        self.kept.push(LinkCall::Sent {
            bytes: copy,
            failed: false,
        });
        self.responses.go_on();
        Ok(bytes.len())
    }

    fn recv(&mut self, into: &mut [u8]) -> Result<usize, Failed>
        ensures call { Receives (⟦<Wire as Link>⟧.calls self.old) (⟦<Wire as Link>⟧.calls self.new) into.new result }
        ensures counts { Counts (⟦<Wire as Link>⟧.faults self.old) (⟦<Wire as Link>⟧.faults self.new) result }

        // A listed receive fails, one where nothing is left, and one that finds no memory: with room the first two alone. Any
        // other gives as much as there is room for.
        ensures listed { FailsNext self.old.counted → IsErr result }
        ensures listed_alone { HasRoomFor (min (length into.old) (length self.old.left)) self.old → IsErr result → FailsNext self.old.counted ⊎ (self.old.left ≡ []) }
        ensures nothing { self.old.left ≡ [] → IsErr result }
        ensures counted { CountsCall self.old.counted self.new.counted }
        ensures kept { IsSome self.old.calls → IsOk result → IsSome self.new.calls }
        ensures kept_failed { CanKeep 2 self.old.calls self.old.room → FailsNext self.old.counted ⊎ (self.old.left ≡ []) → IsSome self.new.calls }
        ensures kept_in_room { HasRoomFor (min (length into.old) (length self.old.left)) self.old → IsSome self.new.calls }
        ensures room { HasRoom 1 self.new.calls self.new.room }
        ensures leaves { LeavesRoom self.old self.new }
        ensures whole { IfOk result (λ count. count ≡ min (length into.old) (length self.old.left)) }
        ensures given { IfOk result (λ count. into.new ≡ take count self.old.left ++ drop count into.old) }
        ensures left { MatchResult result (λ count. self.new.left ≡ drop count self.old.left) (λ _. self.new.left ≡ self.old.left) }
        ensures responses { self.new.responses ≡ self.old.responses }
    {
        if let Err(failed) = self.begin_recv() {
            self.kept.keep(LinkCall::Received {
                bytes: Bytes::new(Vec::new(self.alloc)),
                failed: true,
            });
            return Err(failed);
        }
        let left = self.responses.left();
        let count = into.len().min(left.len());
        let Ok(copy) = self.kept.copy(self.alloc, &left[..count]) else {
            return Err(self.numbered.fault());
        };
        into[..count].copy_from_slice(&left[..count]);
        self.kept.push(LinkCall::Received {
            bytes: copy,
            failed: false,
        });
        self.responses.advance(count);
        Ok(count)
    }

    fn pause(&mut self)
        ensures call { AddsCalls (⟦<Wire as Link>⟧.calls self.old) (⟦<Wire as Link>⟧.calls self.new) (LinkCall.Paused ∷ []) }
        ensures faults { ⟦<Wire as Link>⟧.faults self.new ≡ ⟦<Wire as Link>⟧.faults self.old }

        // It takes no memory, and is kept where there is room for it.
        ensures kept { CanKeep 1 self.old.calls self.old.room → IsSome self.new.calls }
        ensures grows { self.old.room ≤ self.new.room }
        ensures copies { self.new.copies ≡ self.old.copies }
        ensures counted { self.new.counted ≡ self.old.counted }
        ensures left { self.new.left ≡ self.old.left }
        ensures responses { self.new.responses ≡ self.old.responses }
    {
        self.kept.push(LinkCall::Paused);
    }
}
