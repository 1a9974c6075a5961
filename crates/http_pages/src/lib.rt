//! Answers of the desk as responses of HTTP/1.1 (RFC 9112): pages.
//!
//! A page is a status line, field lines, an empty line and the body of the answer, which is JSON. docs/formats.md has each status,
//! its reason and when it comes, under "Pages of HTTP".
#![tactic(auto)]

mod constants;
mod fields;
mod number_laws;
mod statuses;
mod writing;

pub use constants::{
    INSUFFICIENT_STORAGE, INSUFFICIENT_STORAGE_LAST, SERVICE_UNAVAILABLE, SERVICE_UNAVAILABLE_LAST,
    constant_pages,
};
pub use number_laws::defined_numbers;
pub use writing::{MOST_PAGE_HEAD_BYTES, page, page_laws};
