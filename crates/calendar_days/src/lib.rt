//! The days of the calendar from 1970-01-01 to 9986-12-31: a day written `YYYY-MM-DD`, and its first second in UTC.
//!
//! Seconds are counted from 1970-01-01T00:00:00Z, without leap seconds. The calendar is the Gregorian one, as `specs/` says.
#![tactic(auto)]

mod laws;
mod reading;
mod writing;

pub use laws::calendar_laws;
pub use reading::{BadDay, read_day};
pub use writing::day_text;
