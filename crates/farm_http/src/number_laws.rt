//! The numbers of the code are those of the definitions.

ghost use Rattle.std.specs.Prelude.{◌≡◌};
ghost use Rattle.farm_http.specs.Limits.{most_account, most_key, most_party_number, most_place, most_tank_number};

use crate::requests::{MOST_ACCOUNT, MOST_KEY, MOST_PARTY_NUMBER, MOST_PLACE, MOST_TANK_NUMBER};

/// Does nothing: its contract is that each number that the definitions state is the code's.
pub fn defined_numbers()
    ensures most_account { MOST_ACCOUNT ≡ most_account }
    ensures most_key { MOST_KEY ≡ most_key }
    ensures most_tank_number { MOST_TANK_NUMBER ≡ most_tank_number }
    ensures most_party_number { MOST_PARTY_NUMBER ≡ most_party_number }
    ensures most_place { MOST_PLACE ≡ most_place }
{}
