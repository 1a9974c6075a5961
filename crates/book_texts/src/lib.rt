//! The texts that are printed of a book: its summary, and the report of a day.
//!
//! Each is appended to a buffer whole, or the buffer is as it was. Amounts are in whole litres and kilograms; docs/formats.md has the
//! lines.
#![tactic(auto)]

mod day_reports;
mod summaries;

pub use day_reports::day_report;
pub use summaries::summary;
