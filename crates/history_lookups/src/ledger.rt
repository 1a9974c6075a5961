//! The books of the tanks of a site, on the stack.

ghost use Rattle.std.specs.Prelude.{◌≡◌, ◌^◌, ◌≤◌, [], length, map};
ghost use Rattle.farm_stock.specs.Books.{book_of, total_of};
ghost use Rattle.history_lookups.specs.Bounds.{HoldAtMost, IsAtMost, PostAtMost, most_posted};
ghost use Rattle.history_lookups.specs.Ledgers.{books_after, books_with, listed_postings, posted_to};
ghost use Rattle.farm_site.specs.declared.limits.TheConstants.{MOST_TANKS};

use crate::postings::Posted;
use farm_fixed::Amount;
use farm_site::{MOST_TANKS, Tank};
use farm_stock::{Posting, TankBook, book_of, plus, total_of};
use std::marker::Model;

/// The books of tanks, in the order of the tanks. In a clause it is the list of them.
#[derive(Drop)]
pub struct Ledger {
    books: [TankBook; MOST_TANKS],
    count: usize,
}

impl Model for Ledger {
    ghost use Rattle.std.specs.Prelude.{◌≤◌, List, take};
    ghost use Rattle.farm_stock.specs.declared.book.TankBook.{TankBook};
    ghost use Rattle.farm_site.specs.declared.limits.TheConstants.{MOST_TANKS};

    ghost Value = { List TankBook };

    ghost view = { λ ledger. take ledger.count ledger.books };

    ghost invariant = { λ ledger. ledger.count ≤ MOST_TANKS };
}

impl Ledger {
    /// The books of these tanks before the first posting: each is its tank's opening.
    pub fn opened(tanks: &[Tank]) -> Ledger
        requires few { length tanks.now ≤ MOST_TANKS }
        ensures opened { result ≡ books_with tanks.now [] }
    {
        let none = Amount { litres: 0, kg: 0 };
        let mut books = [TankBook {
            tank: 0,
            amount: none,
        }; MOST_TANKS];
        for (index, tank) in tanks.iter().enumerate() {
            books[index] = TankBook {
                tank: tank.number,
                amount: tank.opening,
            };
        }
        Ledger {
            books,
            count: tanks.len(),
        }
    }

    /// Adds what an entry posts to the books of its tanks.
    #[inline(always)]
    pub fn post(&mut self, posted: &Posted)
        requires books { HoldAtMost most_posted self.old }
        requires postings { PostAtMost most_posted (listed_postings posted.now) }
        ensures posted { self.new ≡ books_after (listed_postings posted.now) self.old }
    {
        post_all(&mut self.books[..self.count], posted);
    }

    /// The books, in the order of the tanks.
    pub fn books(&self) -> &[TankBook]
        ensures books { result.now ≡ self.now }
        ensures few { length result.now ≤ MOST_TANKS }
    {
        &self.books[..self.count]
    }

    /// What a tank holds by its book. `None` exactly where it isn't there.
    pub fn book_of(&self, tank: u16) -> Option<Amount>
        ensures book { result ≡ book_of tank self.now }
    {
        book_of(&self.books[..self.count], tank)
    }

    /// The sum of the books.
    pub fn total(&self) -> Amount
        requires books { HoldAtMost most_posted self.now }
        ensures total { result ≡ total_of self.now }
    {
        total_of(&self.books[..self.count])
    }
}

// Adds postings to the books of their tanks.
#[inline(always)]
fn post_all(books: &mut [TankBook], posted: &Posted)
    requires books { HoldAtMost most_posted books.old }
    requires postings { PostAtMost most_posted (listed_postings posted.now) }
    ensures posted { books.new ≡ books_after (listed_postings posted.now) books.old }
{
    match posted {
        Posted::Nothing => {}
        Posted::One(posting) => post_one(books, posting),
        Posted::Transfer {
            taken,
            brought,
            gain,
        } => {
            post_one(books, taken);
            post_one(books, brought);
            post_one(books, gain);
        }
    }
}

// Adds a posting to the book of its tank.
#[inline(always)]
fn post_one(books: &mut [TankBook], posting: &Posting)
    requires books { HoldAtMost (10 ^ 18) books.old }
    requires posting { IsAtMost most_posted posting.now.amount }
    ensures posted { books.new ≡ map (posted_to posting.now) books.old }
{
    for book in books.iter_mut() {
        if posting.tank == book.tank {
            book.amount = plus(book.amount, posting.amount);
        }
    }
}
