//! The roof's share of a volume, FRA: what a floating roof takes off what the capacity table says, or gives back where the table
//! includes it.

ghost use Rattle.std.specs.Prelude.{◌≡◌, ◌↔◌, IfOk, IfSome, IsErr, Some, Ok, pos, ◌<ℤ◌};
ghost use Rattle.farm_fixed.specs.Range.{IsWithin};
ghost use Rattle.farm_fixed.specs.declared.limits.TheConstants.{MOST_ROOF_MASS};
ghost use Rattle.strap_table.specs.Roofs.{IsFloatingRoof};
ghost use Rattle.farm_chain.specs.Roofs.{GoesBy, HasShareSign, IsInZone, IsShare, roof_share, share_at, share_by};

use crate::steps::{reference_adjustment, roof_adjustment};
use farm_fixed::{ChainRule, Dens, Fac5, Kg, Litres, Mm};
use farm_rounding::RoundTable;
use strap_table::Roof;

/// FRA, the share of the tank's roof at a level: none without a roof and below its critical zone, and `CriticalZone` within it.
#[tactic(auto, unfolding(crate::specs::Roofs::roof_share))]
pub(crate) fn roof_share(
    rounding: &RoundTable,
    roof: &Option<Roof>,
    level: Mm,
    density: Dens,
    vcf: Fac5,
) -> Result<Litres, ChainRule>
    requires { IfSome roof.now IsFloatingRoof }
    ensures value { result ≡ roof_share rounding.now roof.now level density vcf }
    ensures range { IfOk result IsShare }
    ensures refused { IsErr result ↔ IsInZone roof.now level }
    ensures resting { IfSome roof.now (λ roof. level <ℤ roof.low → result ≡ Ok (pos 0)) }
    ensures sign { IfOk result (HasShareSign roof.now density vcf) }
{
    match roof {
        None => Ok(Litres::in_range(0)),
        Some(roof) => share_at(rounding, roof, level, density, vcf),
    }
}

// The share of a roof at a level.
fn share_at(
    rounding: &RoundTable,
    roof: &Roof,
    level: Mm,
    density: Dens,
    vcf: Fac5,
) -> Result<Litres, ChainRule>
    requires { IsFloatingRoof roof.now }
    ensures value { result ≡ share_at rounding.now roof.now level density vcf }
    ensures range { IfOk result IsShare }
    ensures refused { IsErr result ↔ IsInZone (Some roof.now) level }
    ensures resting { level <ℤ roof.now.low → result ≡ Ok (pos 0) }
    ensures sign { IfOk result (GoesBy roof.now.reference density vcf) }
{
    if level.get() < roof.low.get() {
        return Ok(Litres::in_range(0));
    }
    if level.get() > roof.high.get() {
        return Ok(share_by(rounding, roof.reference, roof.mass, density, vcf));
    }
    Err(ChainRule::CriticalZone)
}

// The share of a roof that floats whole, by whether the table includes it.
fn share_by(
    rounding: &RoundTable,
    reference: Option<Dens>,
    mass: Kg,
    density: Dens,
    vcf: Fac5,
) -> Litres
    requires { IsWithin (pos 0) MOST_ROOF_MASS mass }
    ensures value { result ≡ share_by rounding.now reference mass density vcf }
    ensures range { IsShare result }
    ensures sign { GoesBy reference density vcf result }
{
    match reference {
        None => roof_adjustment(rounding, mass, density, vcf),
        Some(reference) => reference_adjustment(rounding, mass, density, vcf, reference),
    }
}
