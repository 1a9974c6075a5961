//! What is fixed of a tank: its shell, its reference height and its roof.

ghost use Rattle.std.specs.Prelude.{◌≡◌, pos, IfOk, IsTrue, Some};
ghost use Rattle.farm_fixed.specs.Range.{IsWithin};
ghost use Rattle.site_toml.specs.Shells.{floating_at, has_roof, reference_at, referenced_at, roof_at, roof_of_four, roof_of_three, shell_at, is_insulated_at, spec_at};
ghost use Rattle.farm_site.specs.Tanks.{is_roof, is_spec};

use farm_fixed::{
    Dens, HundredthDegree, Kg, MOST_COEFFICIENT, MOST_HEIGHT, MOST_ROOF_MASS, Mm, Shell,
    TenthKilogramPerCubicMetre, is_insulated,
};
use farm_site::Format;
use site_keys::{Keys, RANGE, SiteFault, bad};
use strap_table::{Roof, TankSpec};

/// What is fixed of a tank.
#[tactic(auto, unfolding(crate::specs::Shells::spec_at))]
pub(crate) fn spec_at(format: Format, keys: &Keys<'_>) -> Result<TankSpec, SiteFault>
    ensures spec { result ≡ spec_at format keys.now }
    ensures sound { IfOk result (λ spec. IsTrue (is_spec spec)) }
{
    let shell = shell_at(keys)?;
    let height = keys.whole("reference_height", 1, MOST_HEIGHT)?;
    let roof = roof_at(format, keys)?;
    Ok(TankSpec {
        shell,
        height: Mm::in_range(i128::from(height)),
        roof,
    })
}

// The shell.
#[tactic(auto, unfolding(crate::specs::Shells::shell_at))]
fn shell_at(keys: &Keys<'_>) -> Result<Shell, SiteFault>
    ensures shell { result ≡ shell_at keys.now }
    ensures range { IfOk result (λ shell. IsWithin (pos 0) MOST_COEFFICIENT shell.coefficient) }
{
    let insulated = is_insulated_at(keys)?;
    let coefficient = keys.whole("coefficient", 0, MOST_COEFFICIENT)?;
    let reference = keys.quantity::<HundredthDegree>("reference_temperature")?;
    Ok(Shell {
        insulated,
        coefficient,
        reference,
    })
}

// Whether a shell is insulated.
#[tactic(auto, unfolding(crate::specs::Shells::is_insulated_at))]
fn is_insulated_at(keys: &Keys<'_>) -> Result<bool, SiteFault>
    ensures insulated { result ≡ is_insulated_at keys.now }
{
    let kind = keys.text("shell")?;
    match is_insulated(kind.as_bytes()) {
        Some(insulated) => Ok(insulated),
        None => Err(bad(RANGE, keys.item)),
    }
}

// The roof, by the keys that the format has for one.
fn roof_at(format: Format, keys: &Keys<'_>) -> Result<Option<Roof>, SiteFault>
    ensures roof { result ≡ roof_at format keys.now }
    ensures sound { IfOk result (λ roof. IsTrue (is_roof roof)) }
{
    match format {
        Format::One => roof_of_three(keys),
        Format::Two => roof_of_four(keys),
    }
}

// The roof: a tank has all three keys of one, or none.
#[tactic(auto, unfolding(crate::specs::Shells::roof_of_three))]
fn roof_of_three(keys: &Keys<'_>) -> Result<Option<Roof>, SiteFault>
    ensures roof { result ≡ roof_of_three keys.now }
    ensures sound { IfOk result (λ roof. IsTrue (is_roof roof)) }
{
    if has_roof(keys) {
        return Ok(Some(floating_at(keys)?));
    }
    Ok(None)
}

// The roof: a tank has all three keys of one, also if it has the fourth, the reference density; or none of the four.
#[tactic(auto, unfolding(crate::specs::Shells::roof_of_four))]
fn roof_of_four(keys: &Keys<'_>) -> Result<Option<Roof>, SiteFault>
    ensures roof { result ≡ roof_of_four keys.now }
    ensures sound { IfOk result (λ roof. IsTrue (is_roof roof)) }
{
    if has_roof(keys) || keys.has("roof_reference") {
        return Ok(Some(referenced_at(keys)?));
    }
    Ok(None)
}

// Whether there is one of the three keys of a roof.
fn has_roof(keys: &Keys<'_>) -> bool
    ensures roof { result ≡ has_roof keys.now }
{
    keys.has("roof_kg") || keys.has("roof_low") || keys.has("roof_high")
}

// The floating roof, once there is one, with the reference density of its table.
#[tactic(auto, unfolding(crate::specs::Shells::referenced_at))]
fn referenced_at(keys: &Keys<'_>) -> Result<Roof, SiteFault>
    ensures roof { result ≡ referenced_at keys.now }
    ensures sound { IfOk result (λ roof. IsTrue (is_roof (Some roof))) }
{
    let roof = floating_at(keys)?;
    let reference = reference_at(keys)?;
    Ok(Roof {
        mass: roof.mass,
        low: roof.low,
        high: roof.high,
        reference,
    })
}

// The density that the table's displacement of the roof was computed at, if the table includes it.
#[tactic(auto, unfolding(crate::specs::Shells::reference_at))]
fn reference_at(keys: &Keys<'_>) -> Result<Option<Dens>, SiteFault>
    ensures reference { result ≡ reference_at keys.now }
{
    if !keys.has("roof_reference") {
        return Ok(None);
    }
    Ok(Some(keys.quantity::<TenthKilogramPerCubicMetre>("roof_reference")?))
}

// The floating roof, once there is one, whose table leaves it out.
#[tactic(auto, unfolding(crate::specs::Shells::floating_at))]
fn floating_at(keys: &Keys<'_>) -> Result<Roof, SiteFault>
    ensures roof { result ≡ floating_at keys.now }
    ensures sound { IfOk result (λ roof. IsTrue (is_roof (Some roof))) }
{
    let mass = keys.whole("roof_kg", 1, MOST_ROOF_MASS)?;
    let low = keys.whole("roof_low", 0, MOST_HEIGHT)?;
    let high = keys.whole("roof_high", 0, MOST_HEIGHT)?;
    if high < low {
        return Err(bad(RANGE, keys.item));
    }
    Ok(Roof {
        mass: Kg::in_range(i128::from(mass)),
        low: Mm::in_range(i128::from(low)),
        high: Mm::in_range(i128::from(high)),
        reference: None,
    })
}
