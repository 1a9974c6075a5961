//! The book of a tank, and lists of them.

ghost use Rattle.std.specs.Prelude.{◌≡◌, ◌^◌, ◌+ℤ◌, FitsSigned, IfOk, IsSome, MatchOption, None};
ghost use Rattle.std.specs.Int.{w64};
ghost use Rattle.farm_stock.specs.Books.{book_of, opened, plus, total_of};
ghost use Rattle.farm_stock.specs.Indexes.{IsIndexOf};
ghost use Rattle.farm_stock.specs.Postings.{added};
ghost use Rattle.farm_stock.specs.Sums.{AddUpTo, AreWithinSums};

use farm_fixed::Amount;
use std::alloc::{AllocError, Global};

/// A tank and the amount that it holds by the book.
#[derive(Clone, Copy, Debug, PartialEq, Eq)]
pub struct TankBook {
    /// The number of the tank.
    pub tank: u16,
    /// What it holds.
    pub amount: Amount,
}

/// The books of these tanks, each with its opening.
pub(crate) fn opened(alloc: Global, openings: &[(u16, Amount)]) -> Result<Vec<TankBook>, AllocError>
    ensures opened { IfOk result (λ books. books.items ≡ opened openings.now) }
{
    openings
        .iter()
        .map(|opening| TankBook {
            tank: opening.0,
            amount: opening.1,
        })
        .collect(alloc)
}

/// Adds an amount to the book of a tank, which is there.
pub(crate) fn add(books: &mut [TankBook], tank: u16, amount: Amount)
    requires tank { IsSome (book_of tank books.old) }
    requires sums { AreWithinSums (added tank amount books.old) }
    ensures added { books.new ≡ added tank amount books.old }
{
    if let Some(index) = index_of(books, tank) {
        let book = &mut books[index];
        book.amount = plus(book.amount, amount);
    }
}

/// The index of a tank's book among these, None where the tank isn't there.
pub(crate) fn index_of(books: &[TankBook], tank: u16) -> Option<usize>
    ensures index { MatchOption result (book_of tank books.now ≡ None) (IsIndexOf tank books.now) }
{
    for (index, book) in books.iter().enumerate() {
        if book.tank == tank {
            return Some(index);
        }
    }
    None
}

/// What a tank holds by its book among these, None exactly where the tank isn't there.
pub fn book_of(books: &[TankBook], tank: u16) -> Option<Amount>
    ensures book { result ≡ book_of tank books.now }
{
    let index = index_of(books, tank)?;
    Some(books[index].amount)
}

/// The sum of these books, litres and kg each by itself. Their magnitudes add up to at most 10^18, so that every sum fits.
pub fn total_of(books: &[TankBook]) -> Amount
    requires sums { AddUpTo (10 ^ 18) books.now }
    ensures total { result ≡ total_of books.now }
{
    let mut total = Amount { litres: 0, kg: 0 };
    for book in books {
        total = plus(total, book.amount);
    }
    total
}

/// The sum of two amounts, litres and kg each by itself. Both sums fit their type.
pub fn plus(first: Amount, second: Amount) -> Amount
    requires litres { FitsSigned w64 (first.litres +ℤ second.litres) }
    requires kg { FitsSigned w64 (first.kg +ℤ second.kg) }
    ensures sum { result ≡ plus first second }
{
    Amount {
        litres: first.litres + second.litres,
        kg: first.kg + second.kg,
    }
}
