//! Entering an entry from its bytes, as a journal is recovered.

ghost use Rattle.std.specs.Prelude.{◌≡◌, Err, OnErr, OnOk};
ghost use Rattle.farm_book.specs.Entering.{Enters, IsNextEncoding};

use crate::Book;
use crate::judging::judged;
use farm_base::NoMemory;
use farm_history::Entry;
use thiserror::Error;

/// Why bytes weren't entered.
#[derive(Clone, Copy, Debug, PartialEq, Eq, Error)]
pub enum EnterFault {
    /// They aren't the bytes of an entry that may come next.
    #[error("no entry that may come next")]
    NotNext,
    /// There was no memory for the entry.
    #[error("no memory")]
    NoMemory,
}

impl From<NoMemory> for EnterFault {
    ghost use Rattle.farm_book.specs.declared.entering.EnterFault.TheVariants.{NoMemory};

    ghost from_gives = { λ _ fault. fault ≡ NoMemory };

    fn from(_: NoMemory) -> Self {
        EnterFault::NoMemory
    }
}

impl<const LIMIT: usize> Book<LIMIT> {
    /// Enters the entry that these bytes are, all of them. `NotNext` only where they aren't those of an entry that may come next: one that
    /// is accepted, and whose moment isn't below the last one. `NoMemory` where there is no room for it. After either the book is as it
    /// was.
    pub fn enter(&mut self, bytes: &[u8]) -> Result<(), EnterFault>
        ensures entered { OnOk result (Enters LIMIT self.old.history self.new.history bytes.now) }
        ensures not_next { result ≡ Err EnterFault.NotNext → IsNextEncoding LIMIT self.old.history bytes.now → ⊥ }
        ensures refused { OnErr result (self.new ≡ self.old) }
    {
        let Ok(entry) = Entry::read(bytes) else {
            return Err(EnterFault::NotNext);
        };
        if entry.at < self.last_moment() {
            return Err(EnterFault::NotNext);
        }
        match judged(LIMIT, &self.facts(), &entry) {
            Ok(figured) => {
                self.reserve()?;
                let posted = self.posted(&entry, &figured);
                self.take_in(entry, &figured, &posted);
                Ok(())
            }
            Err(_) => Err(EnterFault::NotNext),
        }
    }
}
