//! The polling of a site's gauge lines: what the registers of a gauge say, and whether that is to be submitted.
//!
//! Levels and water are in mm, temperatures in 0.01 C. A `Poller` asks the gauges of a line by turns over a `Link`, one
//! transaction a turn; a fault is an answer of the turn and no error, and the next turn connects anew. `gauge_maps` has the
//! types of the maps, which are handed out here, too, and the ranges that a site keeps. Only `Poller::new` takes memory.
#![tactic(auto)]

mod asking;
mod deadband;
mod decoding;
mod polled;
mod poller;
mod raw;
mod receiving;
mod sending;

pub use gauge_maps::{
    Field, GaugeMap, Gauges, Host, LineMap, MOST_BIT, MOST_DEADBAND, MOST_GAUGES, MOST_HOST_BYTES,
    MOST_MULTIPLIER, MOST_PORT, MOST_UNIT, MOST_WORDS, REGISTERS, Valid,
};
pub use polled::Polled;
pub use poller::Poller;
pub use raw::Raw;
