//! The numbers of the definitions.

ghost use Rattle.std.specs.Prelude.{◌≡◌};
ghost use Rattle.desk_posts.specs.Limits.{most_requests};

use crate::limits::MOST_REQUESTS;

/// Does nothing: its contract is that each number of this crate is that of the definitions.
pub fn defined_numbers()
    ensures most_requests { MOST_REQUESTS ≡ most_requests }
{}
