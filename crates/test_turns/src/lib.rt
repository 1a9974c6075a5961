//! Tests of a desk that two callers share by turns, on a disk in memory: what no clause of `desk_turns` says.
#![tactic(auto)]

#[cfg(test)]
mod accesses;
#[cfg(test)]
mod days;
#[cfg(test)]
mod desks;
#[cfg(test)]
mod jobs;
#[cfg(test)]
mod passes;
#[cfg(test)]
mod requests;
#[cfg(test)]
mod sharing;
