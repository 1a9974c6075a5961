//! The numbers of the code are those of the definitions.

ghost use Rattle.std.specs.Prelude.{◌≡◌};
ghost use Rattle.strap_courses.specs.Limits.{least_height, scale_per_litre};

use crate::faults::LEAST_HEIGHT;
use crate::strapping::PER_LITRE;

/// Does nothing: its contract is that each number that the definitions state is the code's.
pub fn defined_numbers()
    ensures least_height { LEAST_HEIGHT ≡ least_height }
    ensures scale_per_litre { PER_LITRE ≡ scale_per_litre }
{}
