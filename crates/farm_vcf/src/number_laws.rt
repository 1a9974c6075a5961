//! The numbers of the code are those of the definitions.

ghost use Rattle.std.specs.Prelude.{◌≡◌};
ghost use Rattle.farm_vcf.specs.Limits.{most_factors};

use crate::grid::MOST_FACTORS;

/// Does nothing: its contract is that each number that the definitions state is the code's.
pub fn defined_numbers()
    ensures most_factors { MOST_FACTORS ≡ most_factors }
{}
