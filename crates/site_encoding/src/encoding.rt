//! How a site is written as bytes, item by item, into a buffer that has the room.

mod encoded;
mod gauges;
mod heads;
mod numbers;
mod products;
mod tanks;

pub use gauges::{len_of_lines, put_lines};
pub use heads::{len_of_head, put_head};
pub use products::{len_of_parties, len_of_products, put_parties, put_products};
pub use tanks::{len_of_tanks, put_tanks};
