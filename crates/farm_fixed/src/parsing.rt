//! The text of a number, in one pass: its sign, the digits before the point and those after it.

ghost use Rattle.std.specs.Prelude.{◌≡◌, ◌==◌, ◌*◌, ◌^◌, ◌≤◌, min, slice_index, Some, MatchResult};
ghost use Rattle.farm_fixed.specs.Text.{bad_offset, signed};
ghost use Rattle.farm_fixed.specs.Parsing.{unsigned_text};
ghost use Rattle.farm_fixed.specs.Numerals.{IsDigitRun, IsNumeralOf};

// More than any quantity has units. A greater number counts as this one, so that no text is too long to read.
const CEILING: u64 = 1_000_000_000_000_000_000;

// The powers of ten, up to that of the most decimals of a unit.
const POWERS: [u64; 6] = [1, 10, 100, 1_000, 10_000, 100_000];

/// The digits that a text begins with.
#[derive(Clone, Copy)]
pub struct DigitRun {
    /// The number that they write after another one, at most the ceiling.
    pub value: u64,
    /// How many they are.
    pub count: usize,
}

/// The digits of a number's text, before and after its point.
#[derive(Clone, Copy)]
pub struct Numeral {
    /// The number that they write without the point, at most the ceiling.
    pub value: u64,
    /// How many of them stand after the point.
    pub decimals: usize,
}

/// Whether the text has a minus.
pub(crate) fn is_negative(text: &[u8]) -> bool
    ensures { result ≡ (slice_index text.now 0 == 45) }
{
    matches!(text, [b'-', ..])
}

/// The text without its minus.
pub(crate) fn unsigned_text(text: &[u8]) -> &[u8]
    ensures { result.now ≡ unsigned_text text.now }
{
    match text {
        [b'-', digits @ ..] => digits,
        _ => text,
    }
}

/// The digits that a text begins with, and the number that they write after those of `before`.
pub(crate) fn digit_run(before: u64, text: &[u8]) -> DigitRun
    requires { before ≤ 10 ^ 18 }
    ensures { IsDigitRun before text.now result }
{
    let mut value = before;
    for (count, byte) in text.iter().enumerate() {
        if !byte.is_ascii_digit() {
            return DigitRun { value, count };
        }
        value = (value * 10 + u64::from(*byte - b'0')).min(CEILING);
    }
    DigitRun {
        value,
        count: text.len(),
    }
}

/// The digits of a number's text, or the offset of the first byte after which no continuation is a number, or the length of a
/// text that ends too early.
pub(crate) fn numeral_of(text: &[u8]) -> Result<Numeral, usize>
    ensures { MatchResult result (IsNumeralOf text.now) (λ offset. bad_offset text.now ≡ Some offset) }
{
    let unsigned = unsigned_text(text);
    let whole = digit_run(0, unsigned);
    let rest = &unsigned[whole.count..];
    let end = text.len() - rest.len();
    if whole.count == 0 {
        return Err(end);
    }
    let Some((next, decimals)) = rest.split_first() else {
        return Ok(Numeral {
            value: whole.value,
            decimals: 0,
        });
    };
    if *next != b'.' {
        return Err(end);
    }
    let fraction = digit_run(whole.value, decimals);
    if fraction.count == 0 || fraction.count < decimals.len() {
        return Err(end + 1 + fraction.count);
    }
    Ok(Numeral {
        value: fraction.value,
        decimals: fraction.count,
    })
}

/// A number with as many zeros after it, at most the ceiling.
pub(crate) fn scaled(value: u64, zeros: usize) -> u64
    requires { zeros ≤ 5 }
    ensures { result ≡ min (value * 10 ^ zeros) (10 ^ 18) }
{
    value.saturating_mul(POWERS[zeros]).min(CEILING)
}

/// A magnitude under a minus or none.
pub(crate) fn with_sign(negative: bool, magnitude: u64) -> i64
    requires { magnitude ≤ 10 ^ 18 }
    ensures { result ≡ signed negative magnitude }
{
    let units = magnitude as i64;
    if negative { -units } else { units }
}
