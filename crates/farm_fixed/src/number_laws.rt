//! The numbers of the code are those of the definitions.

ghost use Rattle.std.specs.Prelude.{◌≡◌};
ghost use Rattle.farm_fixed.specs.Limits.{least_density, least_factor, least_temperature, least_units, most_coefficient, most_density, most_factor, most_height, most_litres, most_net, most_roof_mass, most_share, most_temperature, most_tenths, most_units};

use crate::limits::{
    LEAST_DENSITY, LEAST_FACTOR, LEAST_TEMPERATURE, LEAST_UNITS, MOST_COEFFICIENT, MOST_DENSITY,
    MOST_FACTOR, MOST_HEIGHT, MOST_LITRES, MOST_NET, MOST_ROOF_MASS, MOST_SHARE, MOST_TEMPERATURE,
    MOST_TENTHS, MOST_UNITS,
};

/// Does nothing: its contract is that each number that the definitions state is the code's.
pub fn defined_numbers()
    ensures most_units { MOST_UNITS ≡ most_units }
    ensures least_units { LEAST_UNITS ≡ least_units }
    ensures most_height { MOST_HEIGHT ≡ most_height }
    ensures most_tenths { MOST_TENTHS ≡ most_tenths }
    ensures least_temperature { LEAST_TEMPERATURE ≡ least_temperature }
    ensures most_temperature { MOST_TEMPERATURE ≡ most_temperature }
    ensures least_density { LEAST_DENSITY ≡ least_density }
    ensures most_density { MOST_DENSITY ≡ most_density }
    ensures least_factor { LEAST_FACTOR ≡ least_factor }
    ensures most_factor { MOST_FACTOR ≡ most_factor }
    ensures most_share { MOST_SHARE ≡ most_share }
    ensures most_litres { MOST_LITRES ≡ most_litres }
    ensures most_net { MOST_NET ≡ most_net }
    ensures most_roof_mass { MOST_ROOF_MASS ≡ most_roof_mass }
    ensures most_coefficient { MOST_COEFFICIENT ≡ most_coefficient }
{}
