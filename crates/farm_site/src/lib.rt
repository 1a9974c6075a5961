//! The site of a terminal: what it stores, for whom, in which tanks, and which gauges it reads.
//!
//! A `Site` has facts, public ghost fields that hold of every site. `are_products`, `are_parties`, `are_tanks` and `are_lines` say
//! whether items may stand in one. How a site comes from files is `site_file`'s, how it is written as bytes and read from them
//! `site_encoding`'s and `site_decoding`'s. docs/trade.md says what a site is, under "Site".
#![tactic(auto)]

mod formats;
mod hosts;
mod items;
mod limits;
mod lists;
mod names;
mod number_laws;
mod numbers;
mod site;
mod sound;
mod texts;

pub use formats::{Format, format_needed};
pub use hosts::is_host;
pub use items::{Party, Product, Tank};
pub use limits::{
    MOST_FORMAT, MOST_LINES, MOST_NAME_BYTES, MOST_NUMBER, MOST_PARTIES, MOST_PRODUCTS, MOST_STOCK,
    MOST_TANKS,
};
pub use lists::{Lines, Parties, Products, Tanks};
pub use names::{Name, is_name};
pub use number_laws::defined_numbers;
pub use numbers::{Numbered, is_among, item_numbered};
pub use site::Site;
pub use sound::{are_lines, are_parties, are_products, are_tanks};
pub use texts::is_text;
