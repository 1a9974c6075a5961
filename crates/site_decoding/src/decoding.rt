//! The parts of a site at the front of bytes: its head, its products, its parties, its tanks and its gauge lines. Each call answers
//! the part and the bytes after it, `BadSite` exactly where the bytes begin with no such part.

ghost use Rattle.site_decoding.specs.ByteReaders.{Gives};
ghost use Rattle.site_decoding.specs.Decoding.{head_at, lines_at, parties_at, products_at, tanks_at};

mod gauges;
mod heads;
mod lists;
mod numbers;
mod products;
mod tanks;

use crate::SiteBytesFault;
use crate::SiteBytesFault::BadSite;
use farm_rounding::RoundTable;
use farm_site::{
    Format, Name, Party, Product, Tank, are_lines, are_parties, are_products, are_tanks,
};
use gauge_maps::LineMap;
use heads::{format_at, name_at, rounding_at};
use lists::{list16_at, short_list_at};
use std::alloc::Global;

/// The format of a site, its name and its rounding table.
#[tactic(auto, unfolding(crate::specs::Decoding::head_at))]
pub(crate) fn head_at(
    alloc: Global,
    bytes: &[u8],
) -> Result<((Format, (Name, RoundTable)), &[u8]), SiteBytesFault>
    ensures reads { Gives (λ x. (x.0, x.1.now)) result (head_at bytes.now) }
{
    let (format, rest) = format_at(bytes)?;
    let (name, rest) = name_at(alloc, rest)?;
    match rounding_at(format, rest) {
        Ok((rounding, rest)) => Ok(((format, (name, rounding)), rest)),
        Err(fault) => Err(fault),
    }
}

/// The products of a site.
#[tactic(auto, unfolding(crate::specs::Decoding::products_at))]
pub(crate) fn products_at(
    alloc: Global,
    format: Format,
    bytes: &[u8],
) -> Result<(Vec<Product>, &[u8]), SiteBytesFault>
    ensures reads { Gives (λ x. (x.0.items, x.1.now)) result (products_at bytes.now) }
{
    let (products, rest) = short_list_at(alloc, format, 15, bytes)?;
    if !are_products(&products) {
        return Err(BadSite);
    }
    Ok((products, rest))
}

/// The parties of a site.
#[tactic(auto, unfolding(crate::specs::Decoding::parties_at))]
pub(crate) fn parties_at(
    alloc: Global,
    format: Format,
    bytes: &[u8],
) -> Result<(Vec<Party>, &[u8]), SiteBytesFault>
    ensures reads { Gives (λ x. (x.0.items, x.1.now)) result (parties_at bytes.now) }
{
    let (parties, rest) = list16_at(alloc, format, 3, bytes)?;
    if !are_parties(&parties) {
        return Err(BadSite);
    }
    Ok((parties, rest))
}

/// The tanks of a site, each of one of its products.
#[tactic(auto, unfolding(crate::specs::Decoding::tanks_at))]
pub(crate) fn tanks_at<'a>(
    alloc: Global,
    format: Format,
    products: &[Product],
    bytes: &'a [u8],
) -> Result<(Vec<Tank>, &'a [u8]), SiteBytesFault>
    ensures reads { Gives (λ x. (x.0.items, x.1.now)) result (tanks_at format products.now bytes.now) }
{
    let (tanks, rest) = short_list_at(alloc, format, 30, bytes)?;
    if !are_tanks(products, &tanks) {
        return Err(BadSite);
    }
    Ok((tanks, rest))
}

/// The gauge lines of a site, whose gauges are on its tanks.
#[tactic(auto, unfolding(crate::specs::Decoding::lines_at))]
pub(crate) fn lines_at<'a>(
    alloc: Global,
    format: Format,
    tanks: &[Tank],
    bytes: &'a [u8],
) -> Result<(Vec<LineMap>, &'a [u8]), SiteBytesFault>
    ensures reads { Gives (λ x. (x.0.items, x.1.now)) result (lines_at tanks.now bytes.now) }
{
    let (lines, rest) = short_list_at(alloc, format, 4, bytes)?;
    if !are_lines(alloc, tanks, &lines)? {
        return Err(BadSite);
    }
    Ok((lines, rest))
}
