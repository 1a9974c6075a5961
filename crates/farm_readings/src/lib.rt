//! Manual gauging: the reading of two or three tapes, the innage of an outage, the mean of temperatures.
//!
//! Heights are whole millimetres (`Mm`), temperatures hundredths of a degree Celsius (`Centi`). The rules are in the manner
//! of API MPMS 3.1A; docs/trade.md states them under "Readings". Nothing here takes memory.
#![tactic(auto)]

mod datum;
mod number_laws;
mod tapes;
mod temperatures;

pub use datum::{BelowDatum, innage};
pub use number_laws::defined_numbers;
pub use tapes::{MOST_SPREAD, TapeFault, tape};
pub use temperatures::{MOST_TEMPERATURES, mean_temp};
