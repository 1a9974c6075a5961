//! The numbers of the code are those of the definitions.

ghost use Rattle.std.specs.Prelude.{◌≡◌};
ghost use Rattle.farm_readings.specs.Limits.{most_spread, most_temperatures};

use crate::tapes::MOST_SPREAD;
use crate::temperatures::MOST_TEMPERATURES;

/// Does nothing: its contract is that each number that the definitions state is the code's.
pub fn defined_numbers()
    ensures most_spread { MOST_SPREAD ≡ most_spread }
    ensures most_temperatures { MOST_TEMPERATURES ≡ most_temperatures }
{}
