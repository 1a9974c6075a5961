//! What a connection's bytes ask of the desk: a request over HTTP/1.1 as a command or a look-up.
//!
//! A path names a command by its word or a look-up by its route; a command's members are JSON in the body. docs/machine.md has
//! the list that decides, under "What a request asks", and docs/formats.md each route.
#![tactic(auto)]

mod asked;
mod heard;
mod laws;
mod limits;
mod number_laws;
mod paths;
mod resource;
mod route;
mod routes;
mod word;

pub use asked::Asked;
pub use heard::{Heard, hear};
pub use laws::request_laws;
pub use limits::{METHOD_NOT_ALLOWED, MOST_PARAMETER_DIGITS, MOST_REQUEST_BYTES, NOT_FOUND};
pub use number_laws::defined_numbers;
pub use routes::Routes;
