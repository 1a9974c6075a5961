//! Tests of the run of a gauge line, over a link in memory and a desk on a disk in memory: what no clause of `line_posts` says.
#![tactic(auto)]

#[cfg(test)]
mod desks;
#[cfg(test)]
mod lines;
#[cfg(test)]
mod runs;
