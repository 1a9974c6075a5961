//! The gauge lines of a site file: devices, and which of their registers are a tank's level and temperatures.
#![tactic(auto)]

mod fields;
mod gauges;
mod lines;
mod number_laws;

pub use lines::lines_of;
pub use number_laws::defined_numbers;
