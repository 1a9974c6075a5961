//! Bytes that are written one after another, to be appended at once.

ghost use Rattle.std.specs.Prelude.{◌≡◌, ◌+◌, ◌*◌, ◌≤◌, [], ◌++◌, length, All, FitsSigned};
ghost use Rattle.std.specs.Int.{w64};
ghost use Rattle.std.specs.List.{flat_map};
ghost use Rattle.farm_history.specs.Encoding.{signed_bytes};
ghost use Rattle.farm_history.specs.declared.limits.TheConstants.{MOST_ENTRY_BYTES};

use crate::MOST_ENTRY_BYTES;
use std::marker::Model;

/// The bytes that were written so far, as many as an entry may have at most. Contracts see them.
#[derive(Debug, Drop)]
pub struct Written {
    bytes: [u8; MOST_ENTRY_BYTES],
    count: usize,
}

impl Model for Written {
    ghost use Rattle.std.specs.Prelude.{ℕ, ◌≤◌, List, take};
    ghost use Rattle.farm_history.specs.declared.limits.TheConstants.{MOST_ENTRY_BYTES};

    ghost Value = { List ℕ };

    ghost view = { λ written. take written.count written.bytes };

    ghost invariant = { λ written. written.count ≤ MOST_ENTRY_BYTES };
}

impl Written {
    /// No bytes.
    pub(crate) fn new() -> Written
        ensures empty { result ≡ [] }
    {
        Written {
            bytes: [0; MOST_ENTRY_BYTES],
            count: 0,
        }
    }

    /// The bytes.
    pub(crate) fn get(&self) -> &[u8]
        ensures bytes { result.now ≡ self.now }
        ensures few { length result.now ≤ MOST_ENTRY_BYTES }
    {
        &self.bytes[..self.count]
    }

    /// Writes bytes after those before.
    pub(crate) fn push(&mut self, bytes: &[u8])
        requires room { length self.old + length bytes.now ≤ MOST_ENTRY_BYTES }
        ensures pushed { self.new ≡ self.old ++ bytes.now }
    {
        let end = self.count + bytes.len();
        self.bytes[self.count..end].copy_from_slice(bytes);
        self.count = end;
    }

    /// Writes signed numbers, eight bytes each.
    pub(crate) fn push_numbers(&mut self, numbers: &[i64])
        requires room { length self.old + 8 * length numbers.now ≤ MOST_ENTRY_BYTES }
        ensures pushed { self.new ≡ self.old ++ flat_map signed_bytes numbers.now }
        ensures typed { All (FitsSigned w64) numbers.now }
    {
        for number in numbers {
            self.push(&number.to_be_bytes());
        }
    }
}
