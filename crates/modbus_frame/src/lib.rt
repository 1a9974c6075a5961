//! The frames of Modbus TCP: a request for registers, and the response to it.
//!
//! A frame is the header of the Modbus Messaging on TCP/IP Implementation Guide V1.0b (transaction, protocol 0, the length of what
//! follows, unit) and a request or a response of function 03 or 04 of the Modbus Application Protocol V1.1b3. Numbers of two bytes
//! are high byte first. docs/formats.md shows a request and its responses byte by byte. Nothing here takes memory.
#![tactic(auto)]

mod expect;
mod frame;
mod number_laws;
mod published;
mod request;
mod response;

pub use expect::{
    Expect, LEAST_QUANTITY, MOST_QUANTITY, READ_HOLDING_REGISTERS, READ_INPUT_REGISTERS,
};
pub use frame::{Frame, Registers};
pub use number_laws::defined_numbers;
pub use published::published_frames;
pub use request::write_request;
pub use response::read_response;
