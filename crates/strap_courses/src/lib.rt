//! Strapped tanks: the rows of a capacity table from the courses of a shell, its bottom, and what stands inside.
//!
//! Heights are whole millimetres (`Mm`) above the datum plate, circumferences, deductions and thicknesses tenths of one
//! (`Deci`), volumes whole litres. The volume of a course is that of a circle of its mean internal circumference, after
//! ISO 7507-1, with pi as 355 / 113. docs/trade.md states it under "Strapped table".
#![tactic(auto)]

mod bottom;
mod climb;
mod deadwood;
mod faults;
mod heights;
mod number_laws;
mod parts;
mod quotient;
mod shell;
mod strapping;

pub use faults::StrapFault;
pub use number_laws::defined_numbers;
pub use parts::{Course, Deadwood};
pub use strapping::Strapping;
