//! Lists of things at the front of bytes, and things that may be missing.

ghost use Rattle.std.specs.Prelude.{◌≡◌, ◌*◌, ◌<◌, ◌≤◌, ◌^◌, List, ℕ, IfOk, Result, length};
ghost use Rattle.std.specs.Int.{w16, w32};
ghost use Rattle.site_decoding.specs.ByteReaders.{Gives, counted_at, list_at, option_at, short_list_at};

use super::numbers::flag_at;
use crate::SiteBytesFault;
use crate::SiteBytesFault::BadSite;
use byte_readers::{u8_at, u16_at, u32_at};
use farm_site::Format;
use std::alloc::Global;

/// A thing that is read from bytes.
pub trait Piece: Drop {
    ghost use Rattle.farm_site.specs.declared.formats.Format.{Format};
    ghost use Rattle.site_decoding.specs.declared.fault.SiteBytesFault.{SiteBytesFault};

    /// Its reader in each format.
    ghost reads: { Format → List ℕ → Result (Self × List ℕ) SiteBytesFault };

    /// The thing at the front of bytes of a format, and the bytes after it.
    fn read_at(alloc: Global, format: Format, bytes: &[u8]) -> Result<(Self, &[u8]), SiteBytesFault>
        ensures reads { Gives (λ x. (x.0, x.1.now)) result (reads format bytes.now) };
}

/// This many things, each of at least `size` bytes. Room is taken at once, for no more than the bytes can hold (`room_for`).
pub(crate) fn counted_at<T: Piece>(
    alloc: Global,
    format: Format,
    count: usize,
    size: usize,
    bytes: &[u8],
) -> Result<(Vec<T>, &[u8]), SiteBytesFault>
    requires { 0 < size }
    ensures reads { Gives (λ x. (x.0.items, x.1.now)) result (counted_at (T.reads format) count bytes.now) }
    ensures count { IfOk result (λ x. length x.0.items ≡ count) }
{
    let mut items = Vec::with_capacity(alloc, room_for(count, size, bytes))?;
    let mut rest = bytes;
    for index in 0..count {
        let (item, after) = T::read_at(alloc, format, rest)?;
        items.push(item)?;
        rest = after;
    }
    Ok((items, rest))
}

// How many things room is taken for: as many as are stated, or as the bytes can hold if those are fewer.
fn room_for(count: usize, size: usize, bytes: &[u8]) -> usize
    requires size { 0 < size }
    ensures stated { result ≤ count }
    ensures held { result * size ≤ length bytes.now }
{
    count.min(bytes.len() / size)
}

/// A list after its count of one byte.
pub(crate) fn short_list_at<T: Piece>(
    alloc: Global,
    format: Format,
    size: usize,
    bytes: &[u8],
) -> Result<(Vec<T>, &[u8]), SiteBytesFault>
    requires { 0 < size }
    ensures reads { Gives (λ x. (x.0.items, x.1.now)) result (short_list_at (T.reads format) bytes.now) }
{
    let (count, rest) = u8_at(BadSite, bytes)?;
    let (items, rest) = counted_at(alloc, format, usize::from(count), size, rest)?;
    Ok((items, rest))
}

/// A list after its count of 16 bits.
pub(crate) fn list16_at<T: Piece>(
    alloc: Global,
    format: Format,
    size: usize,
    bytes: &[u8],
) -> Result<(Vec<T>, &[u8]), SiteBytesFault>
    requires { 0 < size }
    ensures reads { Gives (λ x. (x.0.items, x.1.now)) result (list_at w16 (T.reads format) bytes.now) }
{
    let (count, rest) = u16_at(BadSite, bytes)?;
    let (items, rest) = counted_at(alloc, format, usize::from(count), size, rest)?;
    Ok((items, rest))
}

/// A list after its count of 32 bits.
pub(crate) fn list32_at<T: Piece>(
    alloc: Global,
    format: Format,
    size: usize,
    bytes: &[u8],
) -> Result<(Vec<T>, &[u8]), SiteBytesFault>
    requires { 0 < size }
    ensures reads { Gives (λ x. (x.0.items, x.1.now)) result (list_at w32 (T.reads format) bytes.now) }
    ensures count { IfOk result (λ x. length x.0.items < 2 ^ 32) }
{
    let (count, rest) = u32_at(BadSite, bytes)?;
    let (items, rest) = counted_at(alloc, format, count as usize, size, rest)?;
    Ok((items, rest))
}

/// A thing that may be missing.
pub(crate) fn option_at<T: Piece>(
    alloc: Global,
    format: Format,
    bytes: &[u8],
) -> Result<(Option<T>, &[u8]), SiteBytesFault>
    ensures reads { Gives (λ x. (x.0, x.1.now)) result (option_at (T.reads format) bytes.now) }
{
    let (there, rest) = flag_at(bytes)?;
    if !there {
        return Ok((None, rest));
    }
    let (thing, rest) = T::read_at(alloc, format, rest)?;
    Ok((Some(thing), rest))
}
