//! The capacity table of a tank, and the tank that it belongs to: from a height to a volume.
//!
//! Heights are whole millimetres (`Mm`) above the datum plate, volumes whole litres (`Litres`). A table has one row each 10 mm,
//! from 0 mm on; between two rows a volume is interpolated and rounded. docs/trade.md states it under "Capacity table".
#![tactic(auto)]

mod faults;
mod interpolation;
mod number_laws;
mod table;
mod tank;

pub use faults::{AboveTable, LEAST_ROWS, MOST_ROWS, TableFault};
pub use number_laws::defined_numbers;
pub use table::CapTable;
pub use tank::{Roof, TankSpec};
