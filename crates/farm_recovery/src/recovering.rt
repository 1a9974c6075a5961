//! What is recovered of a journal: the book of its site, and then its entries.

ghost use Rattle.std.specs.Prelude.{◌≡◌, ◌≢◌, ◌+◌, ◌<◌, ◌≤◌, ℕ, List, [], length, None, Some, IsSome};
ghost use Rattle.farm_history.specs.History.{last_place};
ghost use Rattle.farm_history.specs.declared.limits.TheConstants.{MOST_LIMIT, STOPS_BEYOND_LIMIT};
ghost use Rattle.farm_journal.specs.Recovery.{IsJudged, IsRefusal, TakesNext};
ghost use Rattle.farm_journal.specs.declared.faults.RecoverFault.{RecoverFault};
ghost use Rattle.farm_journal.specs.declared.limits.TheConstants.{MAX_BODIES};
ghost use Rattle.farm_recovery.specs.Accepting.{accepted_next, taken_of};
ghost use Rattle.journaled_book.specs.Histories.{IsRecordable};
ghost use Rattle.farm_recovery.specs.Recovery.{IsRefused};

use farm_book::{Book, EnterFault};
use farm_journal::{Taken, Taker};
use farm_site::Site;
use site_decoding::{SiteBytesFault, SiteFromBytes, decoding_laws};
use std::alloc::Global;
use std::marker::Model;

/// The book that a journal's header and bodies have made so far; `None` before the header.
#[derive(Drop)]
pub struct Recovering<const LIMIT: usize> {
    alloc: Global,
    book: Option<Book<LIMIT>>,
}

impl<const LIMIT: usize> Model for Recovering<LIMIT> {
    ghost use Rattle.std.specs.Prelude.{◌≤◌, Option, IfSome, option_map};
    ghost use Rattle.farm_history.specs.History.{History};
    ghost use Rattle.farm_history.specs.declared.limits.TheConstants.{MOST_LIMIT};
    ghost use Rattle.journaled_book.specs.Histories.{IsRecordable};

    ghost Value = { Option History };

    ghost view = { λ recovering. option_map (λ book. book.history) recovering.book };

    ghost invariant = { λ recovering. (LIMIT ≤ MOST_LIMIT) × IfSome recovering.book (λ book. IsRecordable LIMIT book.history) };
}

impl<const LIMIT: usize> Recovering<LIMIT> {
    /// Nothing is recovered yet.
    pub fn new(alloc: Global) -> Self
        requires limit { LIMIT ≤ MOST_LIMIT }
        ensures nothing { result ≡ None }
    {
        Recovering { alloc, book: None }
    }

    /// Does nothing: its contract is what a refusal says of the bytes, given what was taken of them.
    pub fn refusals(&self)
        ensures refused { (bytes : List ℕ) (fault : RecoverFault) →
            IsRefusal (accepted_next LIMIT) (taken_of self.now) bytes fault → IsRefused LIMIT bytes fault }
    {
        decoding_laws();
        let _ = &self.book;
    }

    /// The book, once the header was taken.
    pub fn into_book(self) -> Book<LIMIT>
        requires header { IsSome self }
        ensures history { Some result.history ≡ self.entry }
        ensures recordable { IsRecordable LIMIT result.history }
    {
        match self.book {
            Some(book) => book,
            None => unreachable!(),
        }
    }
}

impl<const LIMIT: usize> Taker for Recovering<LIMIT> {
    ghost taken = { taken_of };

    ghost accepts = { accepted_next LIMIT };

    fn header(&mut self, bytes: &[u8]) -> Taken
        requires first { ⟦<Recovering<LIMIT> as Taker>⟧.taken self.old ≡ [] }
        ensures judged { IsJudged (⟦<Recovering<LIMIT> as Taker>⟧.accepts (⟦<Recovering<LIMIT> as Taker>⟧.taken self.old) bytes.now) result }
        ensures taken { TakesNext (⟦<Recovering<LIMIT> as Taker>⟧.taken self.old) (⟦<Recovering<LIMIT> as Taker>⟧.taken self.new) bytes.now result }
        ensures refused { result ≢ Taken.Go → self.new ≡ self.old }
    {
        decoding_laws();
        match Site::from_bytes(self.alloc, bytes) {
            Ok(site) => match Book::new(self.alloc, site) {
                Ok(book) => {
                    self.book = Some(book);
                    Taken::Go
                }
                Err(_) => Taken::NoMemory,
            },
            Err(SiteBytesFault::BadSite) => Taken::Bad,
            Err(SiteBytesFault::NoMemory) => Taken::NoMemory,
        }
    }

    fn body(&mut self, place: u32, bytes: &[u8]) -> Taken
        requires next { length (⟦<Recovering<LIMIT> as Taker>⟧.taken self.old) ≡ place }
        requires after_header { ⟦<Recovering<LIMIT> as Taker>⟧.taken self.old ≢ [] }
        ensures judged { IsJudged (⟦<Recovering<LIMIT> as Taker>⟧.accepts (⟦<Recovering<LIMIT> as Taker>⟧.taken self.old) bytes.now) result }
        ensures taken { TakesNext (⟦<Recovering<LIMIT> as Taker>⟧.taken self.old) (⟦<Recovering<LIMIT> as Taker>⟧.taken self.new) bytes.now result }
        ensures last_place { result ≡ Taken.Go → place ≤ MAX_BODIES }
        ensures refused { result ≢ Taken.Go → self.new ≡ self.old }
    {
        match &mut self.book {
            None => unreachable!(),
            Some(book) => entered(book, bytes),
        }
    }
}

// Enters the entry that a body is in a book.
fn entered<const LIMIT: usize>(book: &mut Book<LIMIT>, bytes: &[u8]) -> Taken
    requires recordable { IsRecordable LIMIT book.old.history }
    ensures judged { IsJudged (accepted_next LIMIT (taken_of (Some book.old.history)) bytes.now) result }
    ensures taken { TakesNext (taken_of (Some book.old.history)) (taken_of (Some book.new.history)) bytes.now result }
    ensures recordable { IsRecordable LIMIT book.new.history }
    ensures room { result ≡ Taken.Go → last_place book.old.history < LIMIT + STOPS_BEYOND_LIMIT }
    ensures refused { result ≢ Taken.Go → book.new ≡ book.old }
{
    decoding_laws();
    match book.enter(bytes) {
        Ok(()) => Taken::Go,
        Err(EnterFault::NotNext) => Taken::Bad,
        Err(EnterFault::NoMemory) => Taken::NoMemory,
    }
}
