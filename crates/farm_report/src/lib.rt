//! The texts that the program prints of its content: the ten lines of figures, and the issued capacity tables of a site.
//!
//! Each is appended to a buffer whole, or the buffer is as it was. Levels are in mm, volumes in litres; docs/formats.md has the
//! lines.
#![tactic(auto)]

mod figures;
mod tables;

pub use figures::figures_text;
pub use tables::issued;
