//! Tests of the frames of Modbus TCP, and of the polling of gauges over a link in memory: what no clause of `modbus_frame` and
//! `modbus_poll` says.
#![tactic(auto)]

#[cfg(test)]
mod calls;
#[cfg(test)]
mod conversations;
#[cfg(test)]
mod deadbands;
#[cfg(test)]
mod decoding;
#[cfg(test)]
mod frames;
#[cfg(test)]
mod gauges;
#[cfg(test)]
mod next_polls;
#[cfg(test)]
mod polling;
