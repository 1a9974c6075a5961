//! What bytes are as a response.

use crate::MOST_QUANTITY;

/// The registers of a response.
#[derive(Clone, Copy, Debug, PartialEq, Eq)]
pub struct Registers {
    /// How many there are, from 1 to 125.
    pub count: u8,
    /// The registers, then zeros.
    pub words: [u16; MOST_QUANTITY as usize],
}

/// What the bytes that were received so far are as a response to a request.
#[derive(Clone, Copy, Debug, PartialEq, Eq)]
pub enum Frame {
    /// They are no whole response, and no field whose bytes are all there disagrees: this many bytes have to be received before more can
    /// be said.
    Need(usize),
    /// They begin with a whole response with these registers, of this many bytes.
    Words(Registers, usize),
    /// They begin with a whole response with this exception code, of this many bytes.
    Exception(u8, usize),
    /// They are no response to the request: this field is the first on which they disagree. 1 is the transaction, 2 the protocol, 3 the
    /// length, 4 the unit, 5 the function and 6 the byte count.
    Wrong(u8),
}
