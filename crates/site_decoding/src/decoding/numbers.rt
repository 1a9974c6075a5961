//! Bytes, numbers and texts at the front of bytes. Each call answers the value and the bytes after it.

ghost use Rattle.std.specs.Prelude.{◌≡◌, Ok, Err, if◌then◌else◌};
ghost use Rattle.std.specs.Int.{w16, w32};
ghost use Rattle.farm_fixed.specs.Range.{is_within};
ghost use Rattle.site_decoding.specs.ByteReaders.{Gives, byte_up_to, bytes_at, flag_at, natural_at, text_at};
ghost use Rattle.site_decoding.specs.Decoding.{density_at, factor_at, height_at, temperature_at};

use crate::SiteBytesFault;
use crate::SiteBytesFault::BadSite;
use byte_readers::{i16_at, u8_at, u16_at, u32_at};
use farm_base::Items;
use farm_fixed::{Centi, Dens, Fac5, Mm, Quantity, Unit};
use std::alloc::Global;

/// A byte that is at most this.
#[tactic(auto, unfolding(crate::specs::ByteReaders::byte_up_to))]
pub(crate) fn byte_up_to(most: u8, bytes: &[u8]) -> Result<(u8, &[u8]), SiteBytesFault>
    ensures reads { Gives (λ x. (x.0, x.1.now)) result (byte_up_to most bytes.now) }
{
    let (byte, rest) = u8_at(BadSite, bytes)?;
    if byte > most {
        return Err(BadSite);
    }
    Ok((byte, rest))
}

/// Yes or no.
#[tactic(auto, unfolding(crate::specs::ByteReaders::flag_at))]
pub(crate) fn flag_at(bytes: &[u8]) -> Result<(bool, &[u8]), SiteBytesFault>
    ensures reads { Gives (λ x. (x.0, x.1.now)) result (flag_at bytes.now) }
{
    let (byte, rest) = byte_up_to(1, bytes)?;
    Ok((byte == 1, rest))
}

/// A number of 16 bits that isn't below 0.
#[tactic(auto, unfolding(crate::specs::ByteReaders::natural_at))]
pub(crate) fn natural16_at(bytes: &[u8]) -> Result<(i64, &[u8]), SiteBytesFault>
    ensures reads { Gives (λ x. (x.0, x.1.now)) result (natural_at w16 bytes.now) }
{
    let (number, rest) = u16_at(BadSite, bytes)?;
    Ok((i64::from(number), rest))
}

/// A number of 32 bits that isn't below 0.
#[tactic(auto, unfolding(crate::specs::ByteReaders::natural_at))]
pub(crate) fn natural32_at(bytes: &[u8]) -> Result<(i64, &[u8]), SiteBytesFault>
    ensures reads { Gives (λ x. (x.0, x.1.now)) result (natural_at w32 bytes.now) }
{
    let (number, rest) = u32_at(BadSite, bytes)?;
    Ok((i64::from(number), rest))
}

// This many units, if they are in the range of their quantity.
fn ranged<U: Unit>(units: i64) -> Result<Quantity<U>, SiteBytesFault>
    ensures quantity { result ≡ (if is_within U.LEAST U.MOST units then Ok units else Err SiteBytesFault.BadSite) }
{
    match Quantity::new(units) {
        Ok(quantity) => Ok(quantity),
        Err(_) => Err(BadSite),
    }
}

/// A density.
#[tactic(auto, unfolding(crate::specs::Decoding::density_at))]
pub(crate) fn density_at(bytes: &[u8]) -> Result<(Dens, &[u8]), SiteBytesFault>
    ensures reads { Gives (λ x. (x.0, x.1.now)) result (density_at bytes.now) }
{
    let (units, rest) = natural16_at(bytes)?;
    Ok((ranged(units)?, rest))
}

/// A temperature.
#[tactic(auto, unfolding(crate::specs::Decoding::temperature_at))]
pub(crate) fn temperature_at(bytes: &[u8]) -> Result<(Centi, &[u8]), SiteBytesFault>
    ensures reads { Gives (λ x. (x.0, x.1.now)) result (temperature_at bytes.now) }
{
    let (units, rest) = i16_at(BadSite, bytes)?;
    Ok((ranged(i64::from(units))?, rest))
}

/// A factor.
#[tactic(auto, unfolding(crate::specs::Decoding::factor_at))]
pub(crate) fn factor_at(bytes: &[u8]) -> Result<(Fac5, &[u8]), SiteBytesFault>
    ensures reads { Gives (λ x. (x.0, x.1.now)) result (factor_at bytes.now) }
{
    let (units, rest) = natural32_at(bytes)?;
    Ok((ranged(units)?, rest))
}

/// A height.
#[tactic(auto, unfolding(crate::specs::Decoding::height_at))]
pub(crate) fn height_at(bytes: &[u8]) -> Result<(Mm, &[u8]), SiteBytesFault>
    ensures reads { Gives (λ x. (x.0, x.1.now)) result (height_at bytes.now) }
{
    let (units, rest) = natural16_at(bytes)?;
    Ok((ranged(units)?, rest))
}

/// A text.
#[tactic(auto, unfolding(crate::specs::ByteReaders::text_at))]
pub(crate) fn text_at(alloc: Global, bytes: &[u8]) -> Result<(Items<u8>, &[u8]), SiteBytesFault>
    ensures reads { Gives (λ x. (x.0, x.1.now)) result (text_at bytes.now) }
{
    let (count, rest) = u8_at(BadSite, bytes)?;
    let (text, rest) = bytes_at(usize::from(count), rest)?;
    Ok((Items::new(text.to_vec(alloc)?), rest))
}

// This many bytes.
fn bytes_at(count: usize, bytes: &[u8]) -> Result<(&[u8], &[u8]), SiteBytesFault>
    ensures reads { Gives (λ x. (x.0.now, x.1.now)) result (bytes_at count bytes.now) }
{
    if bytes.len() < count {
        return Err(BadSite);
    }
    Ok(bytes.split_at(count))
}
