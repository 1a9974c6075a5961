//! The responses that a link in memory gives, one to each send.

ghost use Rattle.std.specs.Prelude.{◌≡◌, ◌≤◌, [], drop, length, map};
ghost use Rattle.farm_ports.specs.Wires.{first_response, responses_after};

use std::alloc::Global;
use std::marker::Model;
use std::vec::IntoIter;

/// Responses that are still to come, and what is left of the one before them.
#[derive(Drop)]
pub struct Responses {
    coming: IntoIter<Vec<u8>>,
    current: Vec<u8>,
    offset: usize,
}

impl Model for Responses {
    ghost use Rattle.std.specs.Prelude.{◌≤◌, drop, map, vec_len};
    ghost use Rattle.std.specs.Vec.Iter.{into_iter_items};
    ghost use Rattle.farm_ports.specs.Wires.{ResponsesState};

    ghost Value = { ResponsesState };

    ghost view = { λ responses. record {
      coming = map (λ response. response.items) (into_iter_items responses.coming);
      left = drop responses.offset responses.current.items;
    } };

    ghost invariant = { λ responses. responses.offset ≤ vec_len responses.current };
}

impl Responses {
    /// These responses, and nothing to receive before the first send. Takes no memory.
    pub(crate) fn new(alloc: Global, responses: Vec<Vec<u8>>) -> Self
        ensures coming { result.coming ≡ map (λ response. response.items) responses.items }
        ensures left { result.left ≡ [] }
    {
        Responses {
            coming: responses.into_iter(),
            current: Vec::new(alloc),
            offset: 0,
        }
    }

    /// What is left to receive.
    pub(crate) fn left(&self) -> &[u8]
        ensures { result.now ≡ self.now.left }
    {
        &self.current[self.offset..]
    }

    /// Drops what was left.
    pub(crate) fn drop_left(&mut self)
        ensures coming { self.new.coming ≡ self.old.coming }
        ensures left { self.new.left ≡ [] }
    {
        self.offset = self.current.len();
    }

    /// Drops what was left, and turns to the next response.
    pub(crate) fn go_on(&mut self)
        ensures coming { self.new.coming ≡ responses_after self.old.coming }
        ensures left { self.new.left ≡ first_response self.old.coming }
    {
        self.drop_left();
        if let Some(response) = self.coming.next() {
            self.current = response;
            self.offset = 0;
        }
    }

    /// Passes over bytes that were received.
    pub(crate) fn advance(&mut self, count: usize)
        requires within { count ≤ length self.old.left }
        ensures coming { self.new.coming ≡ self.old.coming }
        ensures left { self.new.left ≡ drop count self.old.left }
    {
        self.offset += count;
    }
}
