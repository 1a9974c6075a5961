//! Room that is taken beforehand for copies of bytes.

ghost use Rattle.std.specs.Prelude.{◌≡◌, ◌≤◌, ◌<◌, [], IfOk, IsOk, length, vec_capacity};
ghost use Rattle.farm_ports.specs.Copies.{Copies, FitsCopy, TakesOne};

use farm_base::NoMemory;
use std::alloc::Global;
use std::marker::Model;

/// Room for a number of copies, each of as many bytes. A copy takes one of them, and memory of its own where none fits.
#[derive(Drop)]
pub struct CopyRoom {
    spare: Vec<Vec<u8>>,
    size: usize,
}

impl Model for CopyRoom {
    ghost use Rattle.std.specs.Prelude.{All, length};
    ghost use Rattle.farm_ports.specs.Copies.{Copies, IsSpare};

    ghost Value = { Copies };

    ghost view = { λ room. record { count = length room.spare.items; size = room.size } };

    ghost invariant = { λ room. All (IsSpare room.size) room.spare.items };
}

impl CopyRoom {
    /// Room for `count` copies of `size` bytes each.
    pub fn new(alloc: Global, count: usize, size: usize) -> Result<Self, NoMemory>
        ensures count { IfOk result (λ room. room.count ≡ count) }
        ensures size { IfOk result (λ room. room.size ≡ size) }
    {
        let mut spare = Vec::with_capacity(alloc, count)?;
        while spare.len() < count {
            let copy = Vec::with_capacity(alloc, size)?;
            spare.push(copy)?;
        }
        Ok(CopyRoom { spare, size })
    }

    /// No room. Takes no memory.
    pub fn none(alloc: Global) -> Self
        ensures count { result.count ≡ 0 }
        ensures size { result.size ≡ 0 }
    {
        CopyRoom {
            spare: Vec::new(alloc),
            size: 0,
        }
    }

    // A list without a byte, with the room of one copy where there is any.
    fn begin(&mut self, alloc: Global) -> Vec<u8>
        ensures empty { result.items ≡ [] }
        ensures fits { 0 < self.old.count → self.old.size ≤ vec_capacity result }
        ensures one { TakesOne self.old self.new }
    {
        match self.spare.pop() {
            Some(copy) => copy,
            None => Vec::new(alloc),
        }
    }

    /// A copy of bytes. It can fail only where there is no room for it.
    pub fn copy(&mut self, alloc: Global, bytes: &[u8]) -> Result<Vec<u8>, NoMemory>
        ensures copied { IfOk result (λ copy. copy.items ≡ bytes.now) }
        ensures fits { FitsCopy (length bytes.now) self.old → IsOk result }
        ensures one { TakesOne self.old self.new }
    {
        let mut copy = self.begin(alloc);
        copy.extend_from_slice(bytes)?;
        Ok(copy)
    }
}
