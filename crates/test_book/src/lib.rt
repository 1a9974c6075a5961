//! Tests of the book, its indexes, days and their reports: what no clause of `farm_indexes`, `farm_book`, `calendar_days` and `book_texts`
//! says.
#![tactic(auto)]

#[cfg(test)]
mod book;
#[cfg(test)]
mod both_kinds;
#[cfg(test)]
mod commands;
#[cfg(test)]
mod day_rows;
#[cfg(test)]
mod days;
#[cfg(test)]
mod drill;
#[cfg(test)]
mod indexed_book;
#[cfg(test)]
mod many;
#[cfg(test)]
mod refusals;
#[cfg(test)]
mod same_facts;
