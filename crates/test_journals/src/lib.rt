//! Worked rows of journals, as tests: their bytes, what each moment's crash leaves, faults of the disk, and damage.
#![tactic(auto)]

mod listing;

pub use listing::Listing;

#[cfg(test)]
mod crashes;
#[cfg(test)]
mod damage;
#[cfg(test)]
mod faults;
#[cfg(test)]
mod files;
#[cfg(test)]
mod on_a_file;
