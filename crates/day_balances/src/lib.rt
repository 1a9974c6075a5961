//! What a day did to each tank of a site: the balance of its book.
//!
//! A day begins at a second, in UTC, and has 86,400 of them. Moments never fall along a history, so the entries of a day are consecutive.
//! Amounts are whole litres of net standard volume and whole kilograms, each with its sign. Nothing here takes memory.
#![tactic(auto)]

mod balance;
mod balances;
mod day_entries;
mod tank_days;

pub use balance::Balance;
pub use balances::Balances;
pub use day_entries::{DayPlaces, places_of};
