//! The bytes of tanks, each with its capacity table.

ghost use Rattle.std.specs.Prelude.{◌+◌, ◌*◌, ◌≤◌, ◌≡◌, All, IfSome, IsTrue, List, ℕ, length, pos};
ghost use Rattle.std.specs.Int.{w64};
ghost use Rattle.farm_fixed.specs.Range.{IsWithin};
ghost use Rattle.farm_fixed.specs.declared.limits.TheConstants.{LEAST_DENSITY, LEAST_TEMPERATURE, MOST_COEFFICIENT, MOST_DENSITY, MOST_TEMPERATURE};
ghost use Rattle.farm_site.specs.Facts.{are_tanks};
ghost use Rattle.farm_site.specs.declared.limits.TheConstants.{MOST_TANKS};
ghost use Rattle.site_encoding.specs.Buffers.{HasRoom, IsPut};
ghost use Rattle.site_encoding.specs.Encoding.{amount_bytes, flag_byte, reference_bytes, roof_bytes, shell_bytes, short_list_bytes, signed_bytes, tank_bytes};
ghost use Rattle.site_encoding.specs.Sizes.{IsRoofWithMass, IsTankInRange, most_tank_bytes};
ghost use Rattle.farm_site.specs.Typed.{IsTypedRoof, IsTypedTank};

use crate::encoding::encoded::{
    Encoded, Measured, len_of_each, len_of_option, put, put_list, put_option, put_short_list,
};
use farm_fixed::{Amount, Dens, Shell};
use farm_site::{Format, Tank};
use strap_table::Roof;

impl Encoded for Tank {
    ghost bytes = { tank_bytes };

    ghost fits = { IsTankInRange };

    ghost typed = { IsTypedTank };

    #[tactic(auto, unfolding(crate::specs::Encoding::tank_bytes))]
    fn put(&self, format: Format, out: &mut Vec<u8>) {
        put(out, &self.number.to_be_bytes());
        put(out, &self.product.to_be_bytes());
        put_shell(out, &self.spec.shell);
        put(out, &(self.spec.height.get() as u16).to_be_bytes());
        put_option(format, out, &self.spec.roof);
        put_list(format, out, self.table.rows());
        put_amount(out, &self.opening);
    }
}

impl Measured for Tank {
    ghost most = { most_tank_bytes };

    #[tactic(auto, unfolding(crate::specs::Encoding::tank_bytes))]
    fn len(&self, format: Format) -> usize {
        2 + 2
            + 5
            + 2
            + len_of_option(format, &self.spec.roof)
            + 2
            + 4 * self.table.rows().len()
            + 16
    }
}

impl Encoded for Roof {
    ghost bytes = { roof_bytes };

    ghost fits = { IsRoofWithMass };

    ghost typed = { IsTypedRoof };

    #[tactic(auto, unfolding(crate::specs::Encoding::roof_bytes))]
    fn put(&self, format: Format, out: &mut Vec<u8>) {
        put(out, &(self.mass.get() as u32).to_be_bytes());
        put(out, &(self.low.get() as u16).to_be_bytes());
        put(out, &(self.high.get() as u16).to_be_bytes());
        put_reference(format, out, self.reference);
    }
}

impl Measured for Roof {
    ghost most = { 11 };

    #[tactic(auto, unfolding(crate::specs::Encoding::roof_bytes))]
    fn len(&self, format: Format) -> usize {
        8 + len_of_reference(format, &self.reference)
    }
}

/// Puts the tanks of a site after their count.
pub fn put_tanks(format: Format, out: &mut Vec<u8>, tanks: &[Tank])
    requires tanks { (products : List ℕ) × IsTrue (are_tanks products tanks.now) }
    requires room { HasRoom out.old (short_list_bytes (tank_bytes format) tanks.now) }
    ensures put { IsPut out.old out.new (short_list_bytes (tank_bytes format) tanks.now) }
    ensures typed { All IsTypedTank tanks.now }
{
    put_short_list(format, out, tanks);
}

/// How many bytes the tanks of a site have.
pub fn len_of_tanks(format: Format, tanks: &[Tank]) -> usize
    requires tanks { (products : List ℕ) × IsTrue (are_tanks products tanks.now) }
    ensures len { result ≡ length (short_list_bytes (tank_bytes format) tanks.now) }
    ensures short { result ≤ 1 + MOST_TANKS * most_tank_bytes }
{
    1 + len_of_each(format, tanks)
}

// Puts the reference density of a roof that may have one, which format 2 alone has.
fn put_reference(format: Format, out: &mut Vec<u8>, reference: Option<Dens>)
    requires room { HasRoom out.old (reference_bytes format reference) }
    ensures put { IsPut out.old out.new (reference_bytes format reference) }
    ensures typed { IfSome reference (IsWithin LEAST_DENSITY MOST_DENSITY) }
{
    match format {
        Format::One => {}
        Format::Two => put_option(format, out, &reference),
    }
}

// How many bytes the reference density of a roof that may have one has.
fn len_of_reference(format: Format, reference: &Option<Dens>) -> usize
    ensures len { result ≡ length (reference_bytes format reference.now) }
    ensures short { result ≤ 3 }
{
    match (format, reference) {
        (Format::One, _) => 0,
        (Format::Two, None) => 1,
        (Format::Two, Some(_)) => 3,
    }
}

// Puts a shell.
#[tactic(auto, unfolding(crate::specs::Encoding::shell_bytes))]
fn put_shell(out: &mut Vec<u8>, shell: &Shell)
    requires coefficient { IsWithin (pos 0) MOST_COEFFICIENT shell.now.coefficient }
    requires room { HasRoom out.old (shell_bytes shell.now) }
    ensures put { IsPut out.old out.new (shell_bytes shell.now) }
    ensures typed { IsWithin LEAST_TEMPERATURE MOST_TEMPERATURE shell.now.reference }
{
    put(out, &[flag_byte(shell.insulated)]);
    put(out, &(shell.coefficient as u16).to_be_bytes());
    put(out, &(shell.reference.get() as i16).to_be_bytes());
}

// Puts an opening stock.
#[tactic(auto, unfolding(crate::specs::Encoding::amount_bytes))]
fn put_amount(out: &mut Vec<u8>, amount: &Amount)
    requires room { HasRoom out.old (amount_bytes amount.now) }
    ensures put { IsPut out.old out.new (amount_bytes amount.now) }
{
    put_stock(out, amount.litres);
    put_stock(out, amount.kg);
}

// Puts one part of an opening stock.
fn put_stock(out: &mut Vec<u8>, stock: i64)
    requires room { HasRoom out.old (signed_bytes w64 stock) }
    ensures put { IsPut out.old out.new (signed_bytes w64 stock) }
{
    put(out, &stock.to_be_bytes());
}

/// The byte of a yes or a no.
pub(crate) fn flag_byte(flag: bool) -> u8
    ensures { result ≡ flag_byte flag }
{
    if flag { 1 } else { 0 }
}
