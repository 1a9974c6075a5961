//! The numbers of the code are those of the definitions.

ghost use Rattle.std.specs.Prelude.{◌≡◌};
ghost use Rattle.http_requests.specs.Limits.{method_not_allowed, most_parameter_digits, most_request_bytes, not_found};

use crate::limits::{METHOD_NOT_ALLOWED, MOST_PARAMETER_DIGITS, MOST_REQUEST_BYTES, NOT_FOUND};

/// Does nothing: its contract is that each number that the definitions state is the code's.
pub fn defined_numbers()
    ensures most_parameter_digits { MOST_PARAMETER_DIGITS ≡ most_parameter_digits }
    ensures not_found { NOT_FOUND ≡ not_found }
    ensures method_not_allowed { METHOD_NOT_ALLOWED ≡ method_not_allowed }
    ensures most_request_bytes { MOST_REQUEST_BYTES ≡ most_request_bytes }
{}
