//! The reading of a site's folder: `site.toml` and the files that it names.
//!
//! `Site::read` answers the site or the first fault, by code, item and detail. docs/formats.md has each key, its range and its
//! fault, and the order in which they are looked at.
#![tactic(auto)]

mod reading;

pub use reading::ReadSite;
