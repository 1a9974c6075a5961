//! What a post works with.

ghost use Rattle.std.specs.Prelude.{◌≡◌, ◌<◌, ◌≤◌, [], drop, length, take, IfOk, OnErr, OnOk};
ghost use Rattle.farm_base.specs.Counts.{Counts};
ghost use Rattle.farm_base.specs.Known.{Takes};
ghost use Rattle.farm_ports.specs.Ports.{ReadsOn, TakeGives};
ghost use Rattle.http_requests.specs.Hearing.{IsHeard};
ghost use Rattle.desk_posts.specs.Calls.{AsksWellFormed};
ghost use Rattle.http_requests.specs.Limits.{most_request_bytes};

use farm_base::NoMemory;
use farm_ports::{Failed, Source};
use http_requests::{Heard, MOST_REQUEST_BYTES, Routes};
use std::alloc::Global;
use std::marker::Model;

/// What a post works with: room for the bytes of a connection, the routes, and a buffer for a page.
///
/// Contracts see the bytes in hand: those that were taken from the connection and belong to no request that was heard.
#[derive(Drop)]
pub struct PostRoom {
    bytes: Vec<u8>,
    held: usize,
    routes: Routes,
    pub(crate) page: Vec<u8>,
}

impl Model for PostRoom {
    ghost use Rattle.std.specs.Prelude.{◌≡◌, ℕ, ◌≤◌, List, length, take};
    ghost use Rattle.http_requests.specs.Limits.{most_request_bytes};

    ghost Value = { List ℕ };

    ghost view = { λ room. take room.held room.bytes.items };

    ghost invariant = { λ room. (room.held ≤ length room.bytes.items) × (length room.bytes.items ≡ most_request_bytes) };
}

impl PostRoom {
    /// Room for 81,920 bytes, and the routes. It takes the memory of both; that of a page comes later.
    pub fn new(alloc: Global) -> Result<Self, NoMemory>
        ensures in_hand { IfOk result (λ room. room ≡ []) }
    {
        let routes = Routes::new(alloc)?;
        let bytes = vec![in alloc; 0; MOST_REQUEST_BYTES]?;
        Ok(PostRoom {
            bytes,
            held: 0,
            routes,
            page: Vec::new(alloc),
        })
    }

    /// Drops the bytes in hand.
    pub(crate) fn clear(&mut self)
        ensures in_hand { self.new ≡ [] }
    {
        self.held = 0;
    }

    /// What the bytes in hand are.
    pub(crate) fn hear(&self, alloc: Global) -> Heard
        ensures heard { IsHeard self.now result }
        ensures room { result ≡ Heard.Need → length self.now < most_request_bytes }
        ensures well_formed { AsksWellFormed result }
    {
        self.routes.hear(alloc, &self.bytes[..self.held])
    }

    /// Takes bytes behind those in hand, and says how many; 0 is the end.
    pub(crate) fn take_more<S: Source>(&mut self, source: &mut S) -> Result<usize, Failed>
        requires room { length self.old < most_request_bytes }
        ensures taken { IfOk result (ReadsOn (S.stream source.old) (S.stream source.new) self.old self.new most_request_bytes) }
        ensures failed { OnErr result (Takes (S.stream source.old) (S.stream source.new) []) }
        ensures stays { OnErr result (self.new ≡ self.old) }
        ensures held { S.held source.new ≡ S.held source.old }
        ensures counts { Counts (S.faults source.old) (S.faults source.new) result }
    {
        let count = take_behind(self.held, &mut self.bytes, source)?;
        self.held += count;
        Ok(count)
    }

    /// Drops this many of the bytes in hand, from the first on, and moves the others to their place.
    pub(crate) fn pass(&mut self, count: usize)
        requires within { count ≤ length self.old }
        ensures in_hand { self.new ≡ drop count self.old }
    {
        self.bytes.copy_within(count..self.held, 0);
        self.held -= count;
    }
}

// Takes bytes into the part of a buffer behind its first bytes, and says how many.
fn take_behind<S: Source>(first: usize, bytes: &mut [u8], source: &mut S) -> Result<usize, Failed>
    requires within { first ≤ length bytes.old }
    ensures taken { TakeGives (S.stream source.old) (S.stream source.new) (drop first bytes.new) result }
    ensures stays { take first bytes.new ≡ take first bytes.old }
    ensures held { S.held source.new ≡ S.held source.old }
    ensures counts { Counts (S.faults source.old) (S.faults source.new) result }
{
    source.take(&mut bytes[first..])
}
