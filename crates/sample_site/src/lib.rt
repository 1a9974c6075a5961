//! The row site, which worked rows are stated on: as files, as a folder in memory, and as a site.
//!
//! It has two products of the same factors, two parties, and tanks 101 to 106 of one table, in which a mm is 1,000 litres. Tank
//! 105 holds product 2, the others product 1; tank 106 has a floating roof, and tanks 101 and 102 have opening stocks.
#![tactic(auto)]

mod files;
mod site;
mod table;

pub use files::{FACTORS, SITE, row_files, row_folder};
pub use site::sample_site;
