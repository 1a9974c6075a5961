//! Heads of HTTP/1.1 requests: what the front of a connection's bytes is.
//!
//! The front is a whole request, with its method, its target and the lengths of its head and body; or more bytes are needed;
//! or a status says how it is broken. The grammar of a head is that of the kit's `httparse` (RFC 9112); docs/machine.md has
//! the list of rows that decides, under "Heads of requests". No call takes memory.
#![tactic(auto)]

mod fields;
mod fronts;
mod heads;
mod limits;
mod lines;
mod number_laws;

pub use fronts::{Front, RequestFront, front_of};
pub use limits::{
    BAD_REQUEST, CONTENT_TOO_LARGE, HEADER_FIELDS_TOO_LARGE, LENGTH_REQUIRED, MOST_BODY_BYTES,
    MOST_FIELDS, MOST_HEAD_BYTES, MOST_LENGTH_DIGITS,
};
pub use number_laws::defined_numbers;
