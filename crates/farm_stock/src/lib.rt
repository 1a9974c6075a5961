//! The stock book: the amount that each tank of a site holds by the book, as postings add to it.
//!
//! Volumes are whole litres of net standard volume and masses whole kilograms. A posting adds its amount, of either sign, to the
//! book of its tank, and to no other. Only `Stock::new` takes memory.
#![tactic(auto)]

mod book;
mod laws;
mod posting;
mod stock;

pub use book::{TankBook, book_of, plus, total_of};
pub use laws::stock_laws;
pub use posting::{Kind, Posting};
pub use stock::Stock;
