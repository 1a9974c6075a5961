//! What the parts of a site file have in common: the values of a table of TOML by their keys, lists of tables, items that
//! have a number of their own, the files of the folder, and the faults that are found in them.
//!
//! A fault has a code, the item of its list and a detail (`SiteFault`); docs/formats.md has each code.
#![tactic(auto)]

mod codes;
mod fault;
mod files;
mod keys;
mod lists;
mod number_laws;

pub use codes::{FACTORS, FIELD, RANGE, REPEATED, STRAP, TABLE, TEXT, TOO_LONG, TOO_MANY, UNKNOWN};
pub use fault::{SiteFault, SiteReadFault, bad, bad_at};
pub use files::{content, toml_of};
pub use keys::Keys;
pub use lists::{list_at, own_number, put_by_number, reference};
pub use number_laws::defined_numbers;
