//! A site, read from its bytes.
//!
//! An item is read from the front of bytes exactly where they begin with its bytes, as `site_encoding` states them, and it is one that a
//! site may have. `specs/Parts` states it of the five parts of a site, `specs/Sites` puts them together. docs/formats.md has the
//! format, field by field.
#![tactic(auto)]

mod decoding;
mod fault;
mod laws;
mod site;

pub use fault::SiteBytesFault;
pub use laws::decoding_laws;
pub use site::SiteFromBytes;
