//! The stock book.

ghost use Rattle.std.specs.Prelude.{◌≡◌, ◌≢◌, ◌↔◌, ℕ, Contains, IfOk, IsSome, Some};
ghost use Rattle.farm_fixed.specs.declared.records.Amount.{Amount};
ghost use Rattle.farm_stock.specs.Books.{IsRising, book_of, opened, plus, tanks_of, total_of};
ghost use Rattle.farm_stock.specs.Postings.{posted};
ghost use Rattle.farm_stock.specs.Sums.{AreWithinSums, IsSound};

use crate::Posting;
use crate::book::{TankBook, add, book_of, opened, total_of};
use farm_base::NoMemory;
use farm_fixed::Amount;
use std::alloc::Global;
use std::marker::Model;

/// The books of the tanks of a site. In a clause it is the list of them, in rising order of the tank.
#[derive(Debug, Drop)]
pub struct Stock {
    books: Vec<TankBook>,
}

impl Model for Stock {
    ghost use Rattle.std.specs.Prelude.{List};
    ghost use Rattle.farm_stock.specs.declared.book.TankBook.{TankBook};
    ghost use Rattle.farm_stock.specs.Sums.{IsSound};

    ghost Value = { List TankBook };

    ghost view = { λ stock. stock.books.items };

    ghost invariant = { λ stock. IsSound stock.books.items };
}

impl Stock {
    /// The books of these tanks before the first posting: each holds its opening.
    ///
    /// The numbers of the tanks rise, and the magnitudes of the openings add up to at most 10^17 in litres and in kg.
    pub fn new(alloc: Global, openings: &[(u16, Amount)]) -> Result<Stock, NoMemory>
        requires rising { IsRising (opened openings.now) }
        requires sums { AreWithinSums (opened openings.now) }
        ensures openings { IfOk result (λ stock. stock ≡ opened openings.now) }
    {
        let books = opened(alloc, openings)?;
        Ok(Stock { books })
    }

    /// Adds the posting's amount to the book of its tank, and to no other. Takes no memory.
    ///
    /// The tank is there, and afterwards the magnitudes of the books add up to at most 10^17 in litres and in kg.
    pub fn post(&mut self, posting: &Posting)
        requires tank { IsSome (book_of posting.now.tank self.old) }
        requires sums { AreWithinSums (posted self.old posting.now) }
        ensures book { (before : Amount) → book_of posting.now.tank self.old ≡ Some before → book_of posting.now.tank self.new ≡ Some (plus before posting.now.amount) }
        ensures others { (tank : ℕ) → tank ≢ posting.now.tank → book_of tank self.new ≡ book_of tank self.old }
        ensures tanks { tanks_of self.new ≡ tanks_of self.old }
        ensures posted { self.new ≡ posted self.old posting.now }
    {
        add(&mut self.books, posting.tank, posting.amount);
    }

    /// What a tank holds by the book, None exactly where the tank isn't there.
    #[tactic(auto, using(crate::proofs::Tanks::has_book_where_there))]
    pub fn book(&self, tank: u16) -> Option<Amount>
        ensures book { result ≡ book_of tank self.now }
        ensures there { IsSome result ↔ Contains (tanks_of self.now) tank }
        ensures sound { IsSound self.now }
    {
        book_of(&self.books, tank)
    }

    /// The sum of the books, litres and kg each by itself.
    pub fn total(&self) -> Amount
        ensures total { result ≡ total_of self.now }
        ensures sound { IsSound self.now }
    {
        total_of(&self.books)
    }
}
