//! The numbers of the definitions.

ghost use Rattle.std.specs.Prelude.{◌≡◌};
ghost use Rattle.line_posts.specs.Limits.{keys_apart, line_accounts, most_rounds};

use crate::limits::{KEYS_APART, LINE_ACCOUNTS, MOST_ROUNDS};

/// Does nothing: its contract is that each number of this crate is that of the definitions.
pub fn defined_numbers()
    ensures line_accounts { LINE_ACCOUNTS ≡ line_accounts }
    ensures keys_apart { KEYS_APART ≡ keys_apart }
    ensures most_rounds { MOST_ROUNDS ≡ most_rounds }
{}
