//! Heights as numbers without a sign.

ghost use Rattle.std.specs.Prelude.{◌≡◌, ◌≤◌, pos};
ghost use Rattle.std.specs.Int.RustNames.{unsigned_abs};
ghost use Rattle.farm_fixed.specs.declared.limits.TheConstants.{MOST_HEIGHT};

use farm_fixed::Mm;

/// A height as a number without a sign.
pub(crate) fn millimetres(height: Mm) -> u64
    ensures value { result ≡ unsigned_abs height }
    ensures signed { pos result ≡ height }
    ensures most { result ≤ unsigned_abs MOST_HEIGHT }
{
    height.get().unsigned_abs()
}
