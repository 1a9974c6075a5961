//! The keys of a site file: its format, its name and its rounding table, and its products, its parties and its tanks, each list
//! read whole from the tables of the file and the files that they name.
//!
//! An item is looked at whole before the next: its keys, and then its file. Items stand in rising order of their own numbers.
#![tactic(auto)]

mod formats;
mod names;
mod parties;
mod products;
mod rounding;
mod shells;
mod tanks;

pub use formats::format_at;
pub use names::name_at;
pub use parties::parties_of;
pub use products::products_of;
pub use rounding::rounding_at;
pub use tanks::tanks_of;
