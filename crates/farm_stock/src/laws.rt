//! What follows from the definitions for every list of postings.

ghost use Rattle.farm_stock.specs.Laws.{BooksAddUp, TotalsAddUp};

/// Does nothing: its contract is the laws of the stock book.
pub fn stock_laws()
    ensures books_add_up { BooksAddUp }
    ensures totals_add_up { TotalsAddUp }
{}
