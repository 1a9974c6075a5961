//! The number of the code is that of the definitions.

ghost use Rattle.std.specs.Prelude.{◌≡◌};
ghost use Rattle.http_pages.specs.Pages.{most_page_head_bytes};

use crate::writing::MOST_PAGE_HEAD_BYTES;

/// Does nothing: its contract is that each number that the definitions state is the code's.
pub fn defined_numbers()
    ensures most_page_head_bytes { MOST_PAGE_HEAD_BYTES ≡ most_page_head_bytes }
{}
