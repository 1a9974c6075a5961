//! The quantities of the custody desk: whole numbers of a unit, each in the range of its type, with one text.
//!
//! A quantity is a number of units of 0.01 C, 0.1 kg/m3, one litre and so on. Its text has the unit's decimals;
//! docs/trade.md states the grammar under "Texts of numbers". Nothing here reads or prints a floating-point number.
#![tactic(auto)]

mod fault;
mod limits;
mod number_laws;
mod parsing;
mod printing;
mod quantity;
mod records;
mod shells;
mod units;
mod whole;

pub use farm_base::NoMemory;
pub use fault::{OutOfRange, ReadFault};
pub use limits::{
    LEAST_DENSITY, LEAST_FACTOR, LEAST_TEMPERATURE, LEAST_UNITS, MOST_COEFFICIENT, MOST_DENSITY,
    MOST_FACTOR, MOST_HEIGHT, MOST_LITRES, MOST_NET, MOST_ROOF_MASS, MOST_SHARE, MOST_TEMPERATURE,
    MOST_TENTHS, MOST_UNITS,
};
pub use number_laws::defined_numbers;
pub use quantity::{Quantity, Unit};
pub use records::{Amount, ChainRule, Quantities, Reading, Sample, Shell};
pub use shells::is_insulated;
pub use units::{
    Centi, Deci, Dens, Fac5, HundredThousandth, HundredthDegree, Kg, Kilogram, Litre, Litres,
    Millimetre, Mm, Permil5, TenthKilogramPerCubicMetre, TenthMillimetre, ThousandthPercent,
};
pub use whole::whole_number;
