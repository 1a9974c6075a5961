//! The answers that wait to be put.

ghost use Rattle.std.specs.Prelude.{◌≡◌, ◌+◌, ◌≤◌, ◌++◌, [], length, IfOk};
ghost use Rattle.farm_base.specs.Counts.{Counts};
ghost use Rattle.farm_batch.specs.Limits.{most_put_bytes};
ghost use Rattle.farm_batch.specs.Puts.{PutsOn};

use crate::limits::MOST_PUT_BYTES;
use farm_base::NoMemory;
use farm_ports::{Failed, Sink, put_all};
use std::alloc::Global;
use std::marker::Model;

/// The text of answers that wait to be put.
#[derive(Drop)]
pub(crate) struct Waiting {
    bytes: Vec<u8>,
    length: usize,
}

impl Model for Waiting {
    ghost use Rattle.std.specs.Prelude.{◌≡◌, ◌≤◌, ℕ, List, take, vec_len};
    ghost use Rattle.farm_batch.specs.Limits.{most_put_bytes};

    ghost Value = { List ℕ };

    ghost view = { λ waiting. take waiting.length waiting.bytes.items };

    ghost invariant = { λ waiting. (waiting.length ≤ most_put_bytes) × (vec_len waiting.bytes ≡ most_put_bytes) };
}

impl Waiting {
    /// No answer waits.
    pub(crate) fn new(alloc: Global) -> Result<Self, NoMemory>
        ensures none { IfOk result (λ waiting. waiting ≡ []) }
    {
        Ok(Waiting {
            bytes: vec![in alloc; 0; MOST_PUT_BYTES]?,
            length: 0,
        })
    }

    /// Puts all that waits. If the put fails, the rest is lost.
    pub(crate) fn put<K: Sink>(&mut self, output: &mut K) -> Result<(), Failed>
        ensures puts { PutsOn (K.held output.old) (K.held output.new) self.old self.new result }
        ensures none { self.new ≡ [] }
        ensures short { length self.old ≤ most_put_bytes }
        ensures counts { Counts (K.faults output.old) (K.faults output.new) result }
    {
        let length = self.length;
        self.length = 0;
        put_all(output, &self.bytes[..length])
    }

    /// Lets a text wait after the others. What waits is put before it would be more than 65,536 bytes.
    pub(crate) fn add<K: Sink>(&mut self, text: &[u8], output: &mut K) -> Result<(), Failed>
        ensures puts { PutsOn (K.held output.old) (K.held output.new) (self.old ++ text.now) self.new result }
        ensures counts { Counts (K.faults output.old) (K.faults output.new) result }
    {
        let mut done = 0;
        while done < text.len() {
            let count = MOST_PUT_BYTES.min(text.len() - done);
            self.add_piece(&text[done..done + count], output)?;
            done += count;
        }
        Ok(())
    }

    // Lets a piece wait after the others, which are put before if there is no room for it.
    fn add_piece<K: Sink>(&mut self, piece: &[u8], output: &mut K) -> Result<(), Failed>
        requires short { length piece.now ≤ most_put_bytes }
        ensures puts { PutsOn (K.held output.old) (K.held output.new) (self.old ++ piece.now) self.new result }
        ensures counts { Counts (K.faults output.old) (K.faults output.new) result }
    {
        if piece.len() > MOST_PUT_BYTES - self.length {
            self.put(output)?;
        }
        self.keep(piece);
        Ok(())
    }

    // Writes a piece after what waits.
    fn keep(&mut self, piece: &[u8])
        requires room { length self.old + length piece.now ≤ most_put_bytes }
        ensures kept { self.new ≡ self.old ++ piece.now }
    {
        let before = self.length;
        self.length += piece.len();
        self.bytes[before..self.length].copy_from_slice(piece);
    }
}
