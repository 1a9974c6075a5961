//! Numbers at the beginning of bytes, high byte first. Each call answers the number and the bytes after it, or `short` if there are fewer
//! bytes than the number has.

ghost use Rattle.std.specs.Int.{w16, w32, w64};
ghost use Rattle.byte_readers.specs.ByteReaders.{Gives, byte_at, number_at, signed_at};

/// A number of 8 bits: a byte.
#[inline(always)]
pub fn u8_at<F: Copy>(short: F, bytes: &[u8]) -> Result<(u8, &[u8]), F>
    ensures reads { Gives (λ x. (x.0, x.1.now)) result (byte_at short bytes.now) }
{
    match bytes {
        [] => Err(short),
        [byte, rest @ ..] => Ok((*byte, rest)),
    }
}

/// A number of 16 bits.
#[inline(always)]
pub fn u16_at<F: Copy>(short: F, bytes: &[u8]) -> Result<(u16, &[u8]), F>
    ensures reads { Gives (λ x. (x.0, x.1.now)) result (number_at short w16 bytes.now) }
{
    if bytes.len() < 2 {
        return Err(short);
    }
    let (front, rest) = bytes.split_at(2);
    Ok((u16::from_be_bytes([front[0], front[1]]), rest))
}

/// A number of 32 bits.
#[inline(always)]
pub fn u32_at<F: Copy>(short: F, bytes: &[u8]) -> Result<(u32, &[u8]), F>
    ensures reads { Gives (λ x. (x.0, x.1.now)) result (number_at short w32 bytes.now) }
{
    if bytes.len() < 4 {
        return Err(short);
    }
    let (front, rest) = bytes.split_at(4);
    let number = u32::from_be_bytes([front[0], front[1], front[2], front[3]]);
    Ok((number, rest))
}

/// A number of 64 bits.
#[inline(always)]
pub fn u64_at<F: Copy>(short: F, bytes: &[u8]) -> Result<(u64, &[u8]), F>
    ensures reads { Gives (λ x. (x.0, x.1.now)) result (number_at short w64 bytes.now) }
{
    if bytes.len() < 8 {
        return Err(short);
    }
    let (front, rest) = bytes.split_at(8);
    let number = u64::from_be_bytes([
        front[0], front[1], front[2], front[3], front[4], front[5], front[6], front[7],
    ]);
    Ok((number, rest))
}

/// A signed number of 16 bits, in two's complement.
#[tactic(auto, unfolding(crate::specs::ByteReaders::signed_at))]
#[inline(always)]
pub fn i16_at<F: Copy>(short: F, bytes: &[u8]) -> Result<(i16, &[u8]), F>
    ensures reads { Gives (λ x. (x.0, x.1.now)) result (signed_at short w16 bytes.now) }
{
    let (number, rest) = u16_at(short, bytes)?;
    Ok((number.cast_signed(), rest))
}

/// A signed number of 64 bits, in two's complement.
#[tactic(auto, unfolding(crate::specs::ByteReaders::signed_at))]
#[inline(always)]
pub fn i64_at<F: Copy>(short: F, bytes: &[u8]) -> Result<(i64, &[u8]), F>
    ensures reads { Gives (λ x. (x.0, x.1.now)) result (signed_at short w64 bytes.now) }
{
    let (number, rest) = u64_at(short, bytes)?;
    Ok((number.cast_signed(), rest))
}
