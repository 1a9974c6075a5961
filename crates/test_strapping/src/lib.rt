//! Tests of strapped tanks: what no clause of `strap_courses` says.
#![tactic(auto)]

#[cfg(test)]
mod faults;
#[cfg(test)]
mod rows;
#[cfg(test)]
mod tanks;
