//! The head at the front of bytes.

ghost use Rattle.http_heads.specs.Fields.{HasTooManyFields};
ghost use Rattle.http_heads.specs.Gathered.{IsParsed};

use crate::limits::FIELD_SLOTS;
use httparse::Status;
use httparse::spans::{EMPTY_HEADER_SPAN, parse_request};

/// A whole head at the front of bytes.
#[derive(Clone, Copy)]
pub(crate) struct Head<'a> {
    pub method: &'a [u8],
    pub target: &'a [u8],
    /// The minor version, 0 or 1.
    pub minor: u8,
    /// How many bytes the head has.
    pub len: usize,
}

/// What bytes are as a head.
#[derive(Clone, Copy)]
pub(crate) enum Parsed<'a> {
    Whole(Head<'a>),
    /// No head is whole, and some bytes can complete one, or the bytes end within the target.
    Open,
    /// No continuation makes a head.
    Hopeless,
}

// What bytes are as a head. Of more fields than the parser has slots for, it couldn't say.
pub(crate) fn head_of(bytes: &[u8]) -> Parsed<'_>
    requires few { HasTooManyFields bytes.now → ⊥ }
    ensures { IsParsed bytes.now result }
{
    let mut slots = [EMPTY_HEADER_SPAN; FIELD_SLOTS];
    match parse_request(bytes, &mut slots) {
        Ok(Status::Complete(head)) => Parsed::Whole(Head {
            method: head.method.of(bytes),
            target: head.path.of(bytes),
            minor: head.version,
            len: head.len,
        }),
        Ok(Status::Partial) => Parsed::Open,
        Err(_) => Parsed::Hopeless,
    }
}
