//! Moments, bytes and short lists at the front of bytes. Each call answers the value and the bytes after it. Where the bytes don't begin
//! with such a value it answers how many bytes are left from the first bad one on, 0 where bytes are missing.

ghost use Rattle.std.specs.Prelude.{◌≡◌, ◌≤◌, nat_le};
ghost use Rattle.byte_readers.specs.ByteReaders.{Gives, made_at};
ghost use Rattle.farm_history.specs.Decoding.{byte_at, first_above, kind_at, list_at, moment_at, numbers_at, padded};
ghost use Rattle.farm_history.specs.declared.limits.TheConstants.{MOST_IN_LIST};

use crate::{Few, LAST_MOMENT, MOST_IN_LIST};
use byte_readers::i64_at;

/// How many bytes are left where bytes are missing.
pub const MISSING: usize = 0;

// A byte that is at most this.
#[inline(always)]
fn byte_up_to(most: u8, bytes: &[u8]) -> Result<(u8, &[u8]), usize>
    ensures byte { Gives (λ x. (x.0, x.1.now)) result (byte_at (λ byte. nat_le byte most) bytes.now) }
{
    match bytes {
        [] => Err(MISSING),
        [byte, rest @ ..] if *byte <= most => Ok((*byte, rest)),
        [_, ..] => Err(bytes.len()),
    }
}

/// Whether a dip is of outages.
#[tactic(auto, unfolding(crate::specs::Decoding::kind_at))]
#[inline(always)]
pub(crate) fn kind_at(bytes: &[u8]) -> Result<(bool, &[u8]), usize>
    ensures kind { Gives (λ x. (x.0, x.1.now)) result (kind_at bytes.now) }
{
    let (kind, rest) = byte_up_to(1, bytes)?;
    Ok((kind == 1, rest))
}

/// A moment that an entry may have.
#[tactic(auto, unfolding(crate::specs::Decoding::moment_at))]
#[inline(always)]
pub(crate) fn moment_at(bytes: &[u8]) -> Result<(i64, &[u8]), usize>
    ensures moment { Gives (λ x. (x.0, x.1.now)) result (moment_at bytes.now) }
{
    if let Some(left) = first_above(&LAST_MOMENT.to_be_bytes(), bytes) {
        return Err(left);
    }
    i64_at(MISSING, bytes)
}

// How many bytes are left at the first that makes a number greater than the greatest, whatever follows.
#[inline(always)]
fn first_above(most: &[u8], bytes: &[u8]) -> Option<usize>
    ensures above { result ≡ first_above most.now bytes.now }
{
    for (index, most_here) in most.iter().enumerate() {
        if index == bytes.len() {
            return None;
        }
        if bytes[index] < *most_here {
            return None;
        }
        if bytes[index] > *most_here {
            return Some(bytes.len() - index);
        }
    }
    None
}

/// A short list.
#[tactic(auto, unfolding(crate::specs::Decoding::list_at))]
#[inline(always)]
pub(crate) fn list_at(bytes: &[u8]) -> Result<(Few, &[u8]), usize>
    ensures list { Gives (λ x. (x.0, x.1.now)) result (list_at bytes.now) }
{
    let (count, rest) = byte_up_to(MOST_IN_LIST, bytes)?;
    let (values, rest) = values_at(count, rest)?;
    Ok((Few { count, values }, rest))
}

// This many numbers, and zeros after them.
#[inline(always)]
fn values_at(count: u8, bytes: &[u8]) -> Result<([i64; 8], &[u8]), usize>
    requires few { count ≤ MOST_IN_LIST }
    ensures values { Gives (λ x. (x.0, x.1.now)) result (made_at (λ numbers. padded count numbers) (numbers_at count) bytes.now) }
{
    let mut values = [0; 8];
    let mut rest = bytes;
    for index in 0..usize::from(count) {
        let (number, after) = i64_at(MISSING, rest)?;
        values[index] = number;
        rest = after;
    }
    Ok((values, rest))
}
