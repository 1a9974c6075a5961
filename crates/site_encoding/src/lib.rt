//! The bytes of a site.
//!
//! `specs/Encoding` states the bytes of each item and of a whole site. An item is written as these bytes into a buffer that has the
//! room, so that no call fails; how many they are is counted before. docs/formats.md has the format, field by field.
#![tactic(auto)]

mod encoding;
mod number_laws;
mod site;

pub use number_laws::defined_numbers;
pub use site::{MOST_SITE_BYTES, SiteToBytes};
