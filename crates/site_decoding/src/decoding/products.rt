//! Products and parties at the front of bytes.

ghost use Rattle.std.specs.Prelude.{◌≡◌, Ok, Err, if◌then◌else◌};
ghost use Rattle.farm_vcf.specs.Grid.{grid_from};
ghost use Rattle.site_decoding.specs.ByteReaders.{Gives};
ghost use Rattle.site_decoding.specs.Decoding.{grid_at, is_grid, party_at, product_at};

use super::lists::{Piece, counted_at, list32_at};
use super::numbers::{density_at, factor_at, temperature_at, text_at};
use crate::SiteBytesFault;
use crate::SiteBytesFault::BadSite;
use byte_readers::u16_at;
use farm_fixed::{Centi, Dens, Fac5};
use farm_site::{Format, Party, Product};
use farm_vcf::Vcf;
use std::alloc::Global;

impl Piece for Dens {
    ghost use Rattle.site_decoding.specs.Decoding.{density_at};

    ghost reads = { λ _. density_at };

    fn read_at(_: Global, _: Format, bytes: &[u8]) -> Result<(Dens, &[u8]), SiteBytesFault> {
        density_at(bytes)
    }
}

impl Piece for Centi {
    ghost use Rattle.site_decoding.specs.Decoding.{temperature_at};

    ghost reads = { λ _. temperature_at };

    fn read_at(_: Global, _: Format, bytes: &[u8]) -> Result<(Centi, &[u8]), SiteBytesFault> {
        temperature_at(bytes)
    }
}

impl Piece for Fac5 {
    ghost use Rattle.site_decoding.specs.Decoding.{factor_at};

    ghost reads = { λ _. factor_at };

    fn read_at(_: Global, _: Format, bytes: &[u8]) -> Result<(Fac5, &[u8]), SiteBytesFault> {
        factor_at(bytes)
    }
}

impl Piece for Product {
    ghost use Rattle.site_decoding.specs.Decoding.{product_at};

    ghost reads = { λ _. product_at };

    #[tactic(auto, unfolding(crate::specs::Decoding::product_at))]
    fn read_at(
        alloc: Global,
        format: Format,
        bytes: &[u8],
    ) -> Result<(Product, &[u8]), SiteBytesFault> {
        let (number, rest) = u16_at(BadSite, bytes)?;
        let (name, rest) = text_at(alloc, rest)?;
        let (vcf, rest) = grid_at(alloc, format, rest)?;
        Ok((Product { number, name, vcf }, rest))
    }
}

impl Piece for Party {
    ghost use Rattle.site_decoding.specs.Decoding.{party_at};

    ghost reads = { λ _. party_at };

    #[tactic(auto, unfolding(crate::specs::Decoding::party_at))]
    fn read_at(alloc: Global, _: Format, bytes: &[u8]) -> Result<(Party, &[u8]), SiteBytesFault> {
        let (number, rest) = u16_at(BadSite, bytes)?;
        let (name, rest) = text_at(alloc, rest)?;
        Ok((Party { number, name }, rest))
    }
}

// The factors of a product.
#[tactic(auto, unfolding(crate::specs::Decoding::grid_at))]
fn grid_at(alloc: Global, format: Format, bytes: &[u8]) -> Result<(Vcf, &[u8]), SiteBytesFault>
    ensures reads { Gives (λ x. (x.0, x.1.now)) result (grid_at bytes.now) }
{
    let (densities, rest) = list32_at::<Dens>(alloc, format, 2, bytes)?;
    let (temperatures, rest) = list32_at::<Centi>(alloc, format, 2, rest)?;
    let count = densities.len() * temperatures.len();
    let (factors, rest) = counted_at::<Fac5>(alloc, format, count, 4, rest)?;
    Ok((grid_of(densities, temperatures, factors)?, rest))
}

// The grid of these lists, if they are one.
fn grid_of(
    densities: Vec<Dens>,
    temperatures: Vec<Centi>,
    factors: Vec<Fac5>,
) -> Result<Vcf, SiteBytesFault>
    ensures grid { let grid = grid_from densities.items temperatures.items factors.items in result ≡ (if is_grid grid then Ok grid else Err SiteBytesFault.BadSite) }
{
    match Vcf::from_grid(densities, temperatures, factors) {
        Ok(grid) => Ok(grid),
        Err(_) => Err(BadSite),
    }
}
