//! Rounding a quotient to a multiple of a step, and the table that says how each figure of the custody calculation is rounded.
//!
//! A rule is a step (1, 2, 5, 10, 20, 50 or 100 units of the figure) and a mode (half away from zero, toward zero or half
//! even). The twelve rows of the table are the profile of this terminal; docs/trade.md states them under "Rounding". The
//! crate also has the signed arithmetic that the figures are computed by, under bounds that leave room for every result.
#![tactic(auto)]

mod arithmetic;
mod mode;
mod multiple;
mod number_laws;
mod table;

pub use arithmetic::{difference, negated, product, sum, wide_difference};
pub use mode::Mode;
pub use multiple::nearest;
pub use number_laws::defined_numbers;
pub use table::{
    BadRow, DEADWOOD_PART, FACTOR_TIES, GROSS_OBSERVED, GROSS_STANDARD, LIQUID_TEMPERATURE, MASS,
    NET_STANDARD, ROOF_ADJUSTMENT, ROUNDING_ROWS, RoundTable, SHELL_CORRECTION, STRAPPED_ROW,
    TABLE_VOLUME, TAPE_MEAN,
};
