//! The numbers of the code are those of the definitions.

ghost use Rattle.std.specs.Prelude.{◌≡◌};
ghost use Rattle.http_heads.specs.Limits.{bad_request, content_too_large, header_fields_too_large, length_required, most_body_bytes, most_fields, most_head_bytes, most_length_digits};

use crate::limits::{
    BAD_REQUEST, CONTENT_TOO_LARGE, HEADER_FIELDS_TOO_LARGE, LENGTH_REQUIRED, MOST_BODY_BYTES,
    MOST_FIELDS, MOST_HEAD_BYTES, MOST_LENGTH_DIGITS,
};

/// Does nothing: its contract is that each number that the definitions state is the code's.
pub fn defined_numbers()
    ensures most_fields { MOST_FIELDS ≡ most_fields }
    ensures most_head_bytes { MOST_HEAD_BYTES ≡ most_head_bytes }
    ensures most_body_bytes { MOST_BODY_BYTES ≡ most_body_bytes }
    ensures most_length_digits { MOST_LENGTH_DIGITS ≡ most_length_digits }
    ensures bad_request { BAD_REQUEST ≡ bad_request }
    ensures length_required { LENGTH_REQUIRED ≡ length_required }
    ensures content_too_large { CONTENT_TOO_LARGE ≡ content_too_large }
    ensures header_fields_too_large { HEADER_FIELDS_TOO_LARGE ≡ header_fields_too_large }
{}
