//! Heights above the datum plate.

ghost use Rattle.std.specs.Prelude.{◌≡◌, ◌↔◌, IfOk, IsErr, ◌+ℤ◌, ◌<ℤ◌};
ghost use Rattle.farm_readings.specs.Readings.{innage_of};

use farm_fixed::Mm;
use farm_rounding::difference;
use thiserror::Error;

/// An outage that reaches below the datum plate: it is above the reference height.
#[derive(Clone, Copy, Debug, PartialEq, Eq, Error)]
#[error("the outage is above the reference height")]
pub struct BelowDatum;

/// The innage that an outage stands for: the reference height less the outage.
pub fn innage(height: Mm, outage: Mm) -> Result<Mm, BelowDatum>
    ensures innage { IfOk result (λ innage. innage +ℤ outage ≡ height) }
    ensures below_datum { IsErr result ↔ (height <ℤ outage) }
    ensures innage_of { result ≡ innage_of height outage }
{
    if height.get() < outage.get() {
        return Err(BelowDatum);
    }
    let innage = difference(height.get(), outage.get());
    Ok(Mm::in_range(i128::from(innage)))
}
