//! The capacity tables of a site: files of levels and litres, and files of the strapping that a table is made of.
#![tactic(auto)]

mod strappings;
mod tables;

pub use strappings::strapped_file;
pub use tables::table_of_file;
