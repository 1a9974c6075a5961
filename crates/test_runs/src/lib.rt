//! The worked rows of the program's runs: examples worked by hand, with the bytes that they give.
//!
//! Each is a test on `run`, or on calls of several crates; one is a contract, which shows it on the definition of postings. The tests
//! of `batch_lines` stand here too. Further cases are data, in `farm_cases`.
#![tactic(auto)]

mod postings;

pub use postings::a_transfer_posts;

#[cfg(test)]
mod batch;
#[cfg(test)]
mod batch_rows;
#[cfg(test)]
mod calc;
#[cfg(test)]
mod day;
#[cfg(test)]
mod desks;
#[cfg(test)]
mod doubt;
#[cfg(test)]
mod limit;
#[cfg(test)]
mod lines;
#[cfg(test)]
mod running;
#[cfg(test)]
mod sharing;
#[cfg(test)]
mod stocks;
#[cfg(test)]
mod table;
#[cfg(test)]
mod values;
#[cfg(test)]
mod words;
