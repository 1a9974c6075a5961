//! Tanks at the front of bytes.

ghost use Rattle.std.specs.Prelude.{◌≡◌, Ok, Err, if◌then◌else◌, is_none};
ghost use Rattle.strap_table.specs.Faults.{first_fault};
ghost use Rattle.site_decoding.specs.ByteReaders.{Gives};
ghost use Rattle.site_decoding.specs.Decoding.{amount_at, reference_at, shell_at, spec_at, table_at};

use super::lists::{Piece, list16_at, option_at};
use super::numbers::{flag_at, height_at, natural16_at, natural32_at, temperature_at};
use crate::SiteBytesFault;
use crate::SiteBytesFault::BadSite;
use byte_readers::{i64_at, u16_at, u32_at};
use farm_fixed::{Amount, Dens, Kg, Shell};
use farm_site::{Format, Tank};
use std::alloc::Global;
use strap_table::{CapTable, Roof, TankSpec};

impl Piece for Tank {
    ghost use Rattle.site_decoding.specs.Decoding.{tank_at};

    ghost reads = { tank_at };

    #[tactic(auto, unfolding(crate::specs::Decoding::tank_at))]
    fn read_at(
        alloc: Global,
        format: Format,
        bytes: &[u8],
    ) -> Result<(Tank, &[u8]), SiteBytesFault> {
        let (number, rest) = u16_at(BadSite, bytes)?;
        let (product, rest) = u16_at(BadSite, rest)?;
        let (spec, rest) = match spec_at(alloc, format, rest) {
            Ok(read) => read,
            Err(fault) => return Err(fault),
        };
        let (table, rest) = table_at(alloc, format, rest)?;
        let (opening, rest) = amount_at(rest)?;
        let tank = Tank {
            number,
            product,
            spec,
            table,
            opening,
        };
        Ok((tank, rest))
    }
}

// What is fixed of a tank.
#[tactic(auto, unfolding(crate::specs::Decoding::spec_at))]
fn spec_at(alloc: Global, format: Format, bytes: &[u8]) -> Result<(TankSpec, &[u8]), SiteBytesFault>
    ensures reads { Gives (λ x. (x.0, x.1.now)) result (spec_at format bytes.now) }
{
    let (shell, rest) = match shell_at(bytes) {
        Ok(read) => read,
        Err(fault) => return Err(fault),
    };
    let (height, rest) = match height_at(rest) {
        Ok(read) => read,
        Err(fault) => return Err(fault),
    };
    match option_at(alloc, format, rest) {
        Ok((roof, rest)) => {
            let spec = TankSpec {
                shell,
                height,
                roof,
            };
            Ok((spec, rest))
        }
        Err(fault) => Err(fault),
    }
}

// A shell.
#[tactic(auto, unfolding(crate::specs::Decoding::shell_at))]
fn shell_at(bytes: &[u8]) -> Result<(Shell, &[u8]), SiteBytesFault>
    ensures reads { Gives (λ x. (x.0, x.1.now)) result (shell_at bytes.now) }
{
    let (insulated, rest) = flag_at(bytes)?;
    let (coefficient, rest) = natural16_at(rest)?;
    match temperature_at(rest) {
        Ok((reference, rest)) => {
            let shell = Shell {
                insulated,
                coefficient,
                reference,
            };
            Ok((shell, rest))
        }
        Err(fault) => Err(fault),
    }
}

impl Piece for Roof {
    ghost use Rattle.site_decoding.specs.Decoding.{roof_at};

    ghost reads = { roof_at };

    #[tactic(auto, unfolding(crate::specs::Decoding::roof_at, crate::specs::ByteReaders::natural_at))]
    fn read_at(
        alloc: Global,
        format: Format,
        bytes: &[u8],
    ) -> Result<(Roof, &[u8]), SiteBytesFault> {
        let (mass, rest) = u32_at(BadSite, bytes)?;
        let mass = Kg::in_range(i128::from(mass));
        let (low, rest) = match height_at(rest) {
            Ok(read) => read,
            Err(fault) => return Err(fault),
        };
        let (high, rest) = match height_at(rest) {
            Ok(read) => read,
            Err(fault) => return Err(fault),
        };
        match reference_at(alloc, format, rest) {
            Ok((reference, rest)) => {
                let roof = Roof {
                    mass,
                    low,
                    high,
                    reference,
                };
                Ok((roof, rest))
            }
            Err(fault) => Err(fault),
        }
    }
}

// The reference density of a roof that may have one, which format 2 alone has.
fn reference_at(
    alloc: Global,
    format: Format,
    bytes: &[u8],
) -> Result<(Option<Dens>, &[u8]), SiteBytesFault>
    ensures reads { Gives (λ x. (x.0, x.1.now)) result (reference_at format bytes.now) }
{
    match format {
        Format::One => Ok((None, bytes)),
        Format::Two => option_at(alloc, format, bytes),
    }
}

// A row of a capacity table, in litres.
impl Piece for i64 {
    ghost use Rattle.std.specs.Int.{w32};
    ghost use Rattle.site_decoding.specs.ByteReaders.{natural_at};

    ghost reads = { λ _. natural_at w32 };

    fn read_at(_: Global, _: Format, bytes: &[u8]) -> Result<(i64, &[u8]), SiteBytesFault> {
        natural32_at(bytes)
    }
}

// A capacity table.
#[tactic(auto, unfolding(crate::specs::Decoding::table_at))]
fn table_at(
    alloc: Global,
    format: Format,
    bytes: &[u8],
) -> Result<(CapTable, &[u8]), SiteBytesFault>
    ensures reads { Gives (λ x. (x.0, x.1.now)) result (table_at bytes.now) }
{
    let (rows, rest) = list16_at::<i64>(alloc, format, 4, bytes)?;
    Ok((table_of(rows)?, rest))
}

// The table of these rows, if they are one.
fn table_of(rows: Vec<i64>) -> Result<CapTable, SiteBytesFault>
    ensures table { result ≡ (if is_none (first_fault rows.items) then Ok rows.items else Err SiteBytesFault.BadSite) }
{
    match CapTable::from_rows(rows) {
        Ok(table) => Ok(table),
        Err(_) => Err(BadSite),
    }
}

// An opening stock.
#[tactic(auto, unfolding(crate::specs::Decoding::amount_at))]
fn amount_at(bytes: &[u8]) -> Result<(Amount, &[u8]), SiteBytesFault>
    ensures reads { Gives (λ x. (x.0, x.1.now)) result (amount_at bytes.now) }
{
    let (litres, rest) = i64_at(BadSite, bytes)?;
    let (kg, rest) = i64_at(BadSite, rest)?;
    Ok((Amount { litres, kg }, rest))
}
