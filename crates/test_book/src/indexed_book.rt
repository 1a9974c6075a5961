//! A book, with indexes of its history beside it.

ghost use Rattle.std.specs.Prelude.{◌≤◌, ◌≤ℤ◌};
ghost use Rattle.farm_history.specs.History.{IsWellFormed, last_moment};
ghost use Rattle.farm_history.specs.Verdicts.{IsNext};
ghost use Rattle.farm_history.specs.declared.limits.TheConstants.{MOST_LIMIT};

use crate::book::entry;
use crate::commands::{Given, command_of};
use crate::same_facts::differing;
use farm_base::NoMemory;
use farm_book::Book;
use farm_history::{Entry, Verdict};
use farm_indexes::{Figured, Indexed, Indexes};
use farm_site::Site;
use sample_site::sample_site;
use std::alloc::Global;
use std::marker::Model;
use std::test::Fail;

/// A book, and indexes of its history beside it. In a clause it is this history.
#[derive(Drop)]
pub struct IndexedBook<const LIMIT: usize> {
    book: Book<LIMIT>,
    indexes: Indexes,
}

impl<const LIMIT: usize> Model for IndexedBook<LIMIT> {
    ghost use Rattle.farm_history.specs.History.{History};
    ghost use Rattle.farm_indexes.specs.Indexing.{AreIndexesOf};

    ghost Value = { History };

    ghost view = { λ both. both.book.history };

    ghost invariant = { λ both. AreIndexesOf both.book.history both.indexes };
}

impl<const LIMIT: usize> IndexedBook<LIMIT> {
    // The book of a site before its first entry, and its indexes.
    fn of_site(alloc: Global, site: Site) -> Result<Self, NoMemory>
        requires limit { LIMIT ≤ MOST_LIMIT }
    {
        let indexes = match Indexes::new(alloc, &site) {
            Ok(indexes) => indexes,
            Err(fault) => {
                drop(site);
                return Err(fault);
            }
        };
        match Book::new(alloc, site) {
            Ok(book) => Ok(IndexedBook { book, indexes }),
            Err(fault) => {
                drop(indexes);
                Err(fault)
            }
        }
    }

    /// The book of the row site before its first entry, and its indexes.
    pub(crate) fn new(alloc: Global) -> Result<Self, Fail>
        requires limit { LIMIT ≤ MOST_LIMIT }
    {
        Ok(IndexedBook::of_site(alloc, sample_site(alloc)?)?)
    }

    /// What the book says of a command under a key, at the moment of the other entries. It is entered if it is accepted.
    pub(crate) fn judged(&mut self, key: u64, given: Given) -> Result<Verdict, NoMemory> {
        if self.book.last_moment() > 1_000 {
            return Ok(Verdict::Repeat(0));
        }
        self.judged_entry(entry(key, command_of(given)))
    }

    // The same of an entry.
    fn judged_entry(&mut self, entry: Entry) -> Result<Verdict, NoMemory>
        requires well_formed { IsWellFormed entry }
        requires moment { last_moment self.old ≤ℤ entry.at }
    {
        let verdict = self.book.judge(&entry);
        match verdict {
            Verdict::Accept => self.enter(entry)?,
            _ => drop(entry),
        }
        Ok(verdict)
    }

    // Enters an accepted entry in both.
    fn enter(&mut self, entry: Entry) -> Result<(), NoMemory>
        requires next { IsNext LIMIT self.old entry }
    {
        if let Err(fault) = self.book.reserve() {
            drop(entry);
            return Err(fault);
        }
        if let Err(fault) = self.indexes.reserve() {
            drop(entry);
            return Err(fault);
        }
        let past = self.book.past();
        let figured = Figured::of(&past, &entry.cmd);
        let posted = self.indexes.posted(&past, &entry, &figured);
        self.indexes.enter(&past, &entry, &figured, &posted);
        self.book.commit(entry);
        Ok(())
    }

    /// How many facts the indexes give that aren't those of the whole list of entries.
    pub(crate) fn differing(&self) -> u64 {
        let past = self.book.past();
        differing(&past, &Indexed::new(self.book.past(), &self.indexes))
    }
}
