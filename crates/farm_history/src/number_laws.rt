//! The numbers of the code are those of the definitions.

ghost use Rattle.std.specs.Prelude.{◌≡◌};
ghost use Rattle.farm_history.specs.Limits.{most_limit, latest_moment, most_in_list, most_entry_bytes, stops_beyond_limit};
ghost use Rattle.farm_history.specs.TapeFaults.{fault_of_below_datum, fault_of_tape_count, fault_of_tape_spread, fault_of_water_tape_count, fault_of_water_tape_spread};

use crate::limits::{LAST_MOMENT, MOST_ENTRY_BYTES, MOST_IN_LIST, MOST_LIMIT, STOPS_BEYOND_LIMIT};
use crate::rule::{BELOW_DATUM, TAPE_COUNT, TAPE_SPREAD, WATER_TAPE_COUNT, WATER_TAPE_SPREAD};

/// Does nothing: its contract is that each number that the definitions state is the code's.
pub fn defined_numbers()
    ensures most_in_list { MOST_IN_LIST ≡ most_in_list }
    ensures latest_moment { LAST_MOMENT ≡ latest_moment }
    ensures most_limit { MOST_LIMIT ≡ most_limit }
    ensures stops_beyond_limit { STOPS_BEYOND_LIMIT ≡ stops_beyond_limit }
    ensures most_entry_bytes { MOST_ENTRY_BYTES ≡ most_entry_bytes }
    ensures fault_of_tape_count { TAPE_COUNT ≡ fault_of_tape_count }
    ensures fault_of_tape_spread { TAPE_SPREAD ≡ fault_of_tape_spread }
    ensures fault_of_below_datum { BELOW_DATUM ≡ fault_of_below_datum }
    ensures fault_of_water_tape_count { WATER_TAPE_COUNT ≡ fault_of_water_tape_count }
    ensures fault_of_water_tape_spread { WATER_TAPE_SPREAD ≡ fault_of_water_tape_spread }
{}
