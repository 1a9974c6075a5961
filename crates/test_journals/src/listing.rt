//! A taker that keeps what it takes.

ghost use Rattle.std.specs.Prelude.{◌≡◌, ◌≢◌, []};
ghost use Rattle.farm_journal.specs.Recovery.{TakesNext};
ghost use Rattle.farm_journal.specs.declared.limits.TheConstants.{MAX_BODIES};
ghost use Rattle.farm_journal.specs.declared.taker.Taken.TheVariants.{Go};
ghost use Rattle.test_journals.specs.Listing.{accepted};

use farm_journal::{MAX_BODIES, Taken, Taker};
use farm_ports::Bytes;
use std::alloc::Global;
use std::marker::Model;

/// Keeps the header and the bodies that it takes, and refuses `bad`.
#[derive(Drop)]
pub struct Listing {
    alloc: Global,
    taken: Vec<Bytes>,
}

impl Model for Listing {
    ghost use Rattle.std.specs.Prelude.{ℕ, List};

    ghost Value = { List (List ℕ) };

    ghost view = { λ listing. listing.taken.items };
}

impl Listing {
    /// One that has taken nothing.
    pub fn new(alloc: Global) -> Self
        ensures empty { result ≡ [] }
    {
        Listing {
            alloc,
            taken: Vec::new(alloc),
        }
    }

    /// What it has taken: the header first.
    pub fn taken(&self) -> &[Bytes]
        ensures taken { result.now ≡ self.now }
    {
        &self.taken
    }

    // Takes the bytes, or says that there is no memory for them.
    fn keep(&mut self, bytes: &[u8]) -> Taken
        ensures taken { TakesNext self.old self.new bytes.now result }
        ensures kept { result ≢ Taken.Bad }
    {
        let Ok(bytes) = bytes.to_vec(self.alloc) else {
            return Taken::NoMemory;
        };
        match self.taken.push(Bytes::new(bytes)) {
            Ok(()) => Taken::Go,
            Err(_) => Taken::NoMemory,
        }
    }
}

impl Taker for Listing {
    ghost taken = { λ listing. listing };

    ghost accepts = { accepted };

    fn header(&mut self, bytes: &[u8]) -> Taken {
        if bytes == b"bad".as_slice() {
            return Taken::Bad;
        }
        self.keep(bytes)
    }

    fn body(&mut self, place: u32, bytes: &[u8]) -> Taken {
        if place > MAX_BODIES || bytes == b"bad".as_slice() {
            return Taken::Bad;
        }
        self.keep(bytes)
    }
}
