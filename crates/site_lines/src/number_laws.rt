//! The numbers of the code are those of the definitions.

ghost use Rattle.std.specs.Prelude.{◌≡◌};
ghost use Rattle.site_lines.specs.Limits.{usual_ambient, usual_deadband_centi, usual_deadband_mm};

use crate::gauges::{USUAL_AMBIENT, USUAL_DEADBAND_CENTI, USUAL_DEADBAND_MM};

/// Does nothing: its contract is that each number that the definitions state is the code's.
pub fn defined_numbers()
    ensures usual_ambient { USUAL_AMBIENT ≡ usual_ambient }
    ensures usual_deadband_mm { USUAL_DEADBAND_MM ≡ usual_deadband_mm }
    ensures usual_deadband_centi { USUAL_DEADBAND_CENTI ≡ usual_deadband_centi }
{}
