//! The rows of a CSV text: those of a table file, whatever its fields mean.
//!
//! A text is read as bytes, by the csv reader's default rules of quoting. A byte order mark at its start is dropped, and an
//! empty line is no record. The first record is a header, and all records have one number of fields, or there are no rows.
#![tactic(auto)]

mod blanks;
mod fault;
mod reader;
mod rows;

pub use blanks::without_blanks;
pub use fault::CsvFault;
pub use rows::{RowOf, rows_below_header};

#[cfg(test)]
mod tests;
