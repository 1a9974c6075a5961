//! Gauge maps: which registers of which device hold a tank's level, water and temperatures, and what they are multiplied by.
//!
//! A line is a device that answers by Modbus over TCP; a gauge is a range of its registers, read by function 3 or 4 of the
//! Modbus Application Protocol V1.1b3. Levels and water are in mm, temperatures in 0.01 C. `specs/Maps` states the ranges that a
//! site keeps; the types hold any numbers. docs/formats.md has the keys of a site file that they come from. Only
//! `LineMap::copy` takes memory.
#![tactic(auto)]

mod limits;
mod map;
mod number_laws;
mod request;

pub use limits::{
    MOST_BIT, MOST_DEADBAND, MOST_GAUGES, MOST_HOST_BYTES, MOST_MULTIPLIER, MOST_PORT, MOST_UNIT,
    MOST_WORDS, REGISTERS,
};
pub use map::{Field, GaugeMap, Gauges, Host, LineMap, Valid};
pub use number_laws::defined_numbers;
pub use request::Request;
