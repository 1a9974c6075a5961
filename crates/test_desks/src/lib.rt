//! Tests of a desk on a disk in memory whose calls fail: what each answers, and what a crash leaves at each moment.
//!
//! A course is a row (`courses.rt`): the calls of the disk that fail, what callers ask and are answered, and what each of three images
//! is recovered as, moment after moment. `drawn.rt` draws such courses, and `model.rt` has the rules of the rows for them.
#![tactic(auto)]

#[cfg(test)]
mod accepted;
#[cfg(test)]
mod commands;
#[cfg(test)]
mod courses;
#[cfg(test)]
mod creating;
#[cfg(test)]
mod disks;
#[cfg(test)]
mod doubted;
#[cfg(test)]
mod drawing;
#[cfg(test)]
mod drawn;
#[cfg(test)]
mod finishing;
#[cfg(test)]
mod images;
#[cfg(test)]
mod model;
#[cfg(test)]
mod recovering;
#[cfg(test)]
mod small_site;
#[cfg(test)]
mod unfailing;
