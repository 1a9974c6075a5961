//! What is wrong with rows or a level: the faults, and the search for the first of the rows, each cause looked for over the
//! whole list.

ghost use Rattle.std.specs.Prelude.{◌≡◌, ◌≤◌, length};
ghost use Rattle.strap_table.specs.Faults.{falling_row, first_fault, first_outside};

use farm_fixed::MOST_LITRES;
use thiserror::Error;

/// The fewest rows of a table.
pub const LEAST_ROWS: usize = 2;

/// The most rows of a table: one each 10 mm of the greatest height, and one at 0.
pub const MOST_ROWS: usize = 5_001;

/// A level above the last row of a capacity table.
#[derive(Clone, Copy, Debug, PartialEq, Eq, Error)]
#[error("the level is above the last row of the capacity table")]
pub struct AboveTable;

/// Why rows are no capacity table. The first of the causes below, in their order, is reported; rows count from 0.
#[derive(Clone, Copy, Debug, PartialEq, Eq, Error)]
pub enum TableFault {
    /// There are fewer than two rows.
    #[error("a capacity table has at least two rows")]
    Short,
    /// There are more than 5,001 rows.
    #[error("a capacity table has at most 5001 rows")]
    TooMany,
    /// The first row whose volume isn't from 0 to 10^9 litres.
    #[error("row {0} is outside 0 to 1000000000 litres")]
    OutOfRange(usize),
    /// The first row below the one before it.
    #[error("row {0} is below the row before it")]
    Falling(usize),
}

/// Why the rows are no capacity table, if they aren't one.
#[tactic(auto, unfolding(crate::specs::Faults::first_fault))]
pub(crate) fn first_fault(rows: &[i64]) -> Option<TableFault>
    ensures { result ≡ first_fault rows.now }
{
    if rows.len() < LEAST_ROWS {
        return Some(TableFault::Short);
    }
    if rows.len() > MOST_ROWS {
        return Some(TableFault::TooMany);
    }
    if let Some(row) = first_outside(rows) {
        return Some(TableFault::OutOfRange(row));
    }
    if let Some(row) = first_falling(rows) {
        return Some(TableFault::Falling(row));
    }
    None
}

// The first row whose volume a table can't have.
fn first_outside(rows: &[i64]) -> Option<usize>
    ensures { result ≡ first_outside 0 rows.now }
{
    for (index, row) in rows.iter().enumerate() {
        if *row < 0 || *row > MOST_LITRES {
            return Some(index);
        }
    }
    None
}

// The first row below the one before it.
fn first_falling(rows: &[i64]) -> Option<usize>
    requires { 1 ≤ length rows.now }
    ensures { result ≡ falling_row rows.now }
{
    for index in 1..rows.len() {
        if rows[index] < rows[index - 1] {
            return Some(index);
        }
    }
    None
}
