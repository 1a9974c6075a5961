//! The numbers of the code are those of the definitions.

ghost use Rattle.std.specs.Prelude.{◌≡◌};
ghost use Rattle.site_encoding.specs.Limits.{most_site_bytes};

use crate::MOST_SITE_BYTES;

/// Does nothing: its contract is that each number that the definitions state is the code's.
pub fn defined_numbers()
    ensures most_site_bytes { MOST_SITE_BYTES ≡ most_site_bytes }
{}
