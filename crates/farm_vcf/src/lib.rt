//! Volume correction factors of a site: a file that lists a factor for each of rising densities and rising temperatures.
//!
//! A factor is looked up at the nearest listed density and temperature, and never interpolated. Densities are in 0.1 kg/m3
//! at 15 C, temperatures in 0.01 C and factors in 0.00001; docs/trade.md states the rules under "Volume correction factors".
#![tactic(auto)]

mod closest;
mod fault;
mod grid;
mod growing;
mod number_laws;
mod records;
mod rows;

pub use fault::{BadGrid, NoEntry, VcfFault};
pub use grid::{MOST_FACTORS, Vcf};
pub use growing::Growing;
pub use number_laws::defined_numbers;
pub use records::row_of_fields;
pub use rows::{Listed, grid_of_rows};
