//! The texts of numbers and quantities at the end of a buffer. Each call appends its text, or fails after a prefix of it.

ghost use Rattle.std.specs.Prelude.{◌≡◌, ◌≤◌, ◌/◌, ◌%◌, ◌^◌, ◌==◌, ◌∷◌, [], decimal, replicate, if◌then◌else◌};
ghost use Rattle.std.specs.Fmt.{signed_decimal};
ghost use Rattle.farm_fixed.specs.Printing.{minus_of, padded, quantity_text};
ghost use Rattle.text_pieces.specs.Pieces.{Lengthens};

use farm_base::NoMemory;
use itoa::{Buffer, write_digits};

// The most digits that a `u64` has.
const DIGITS: usize = 20;

// 10 to the power of this is above every `u64`.
const BEYOND: u8 = 20;

// As many zeros as a text can have in front of its decimals.
const ZEROS: [u8; 256] = [b'0'; 256];

/// Appends a number.
#[inline(never)]
pub(crate) fn write_number(out: &mut Vec<u8>, number: u64) -> Result<(), NoMemory>
    ensures number { Lengthens out.old.items out.new.items (decimal number) result }
{
    let mut digits = [0; DIGITS];
    let start = write_digits(number, &mut digits, DIGITS);
    out.extend_from_slice(&digits[start..])?;
    Ok(())
}

/// Appends a signed number.
#[inline(never)]
pub(crate) fn write_signed(out: &mut Vec<u8>, number: i64) -> Result<(), NoMemory>
    ensures signed { Lengthens out.old.items out.new.items (signed_decimal number) result }
{
    out.extend_from_slice(Buffer::new().format(number).as_bytes())?;
    Ok(())
}

/// Appends the text of a number of units with this many decimals.
#[inline(never)]
pub(crate) fn write_quantity(out: &mut Vec<u8>, places: u8, units: i64) -> Result<(), NoMemory>
    ensures quantity { Lengthens out.old.items out.new.items (quantity_text places units) result }
{
    let (whole, decimals) = split_at_point(units.unsigned_abs(), places);
    write_minus(out, units)?;
    write_number(out, whole)?;
    write_decimals(out, places, decimals)
}

// The units before the point, and those after it.
fn split_at_point(units: u64, places: u8) -> (u64, u64)
    ensures whole { result.0 ≡ units / 10 ^ places }
    ensures decimals { result.1 ≡ units % 10 ^ places }
{
    if places >= BEYOND {
        return (0, units);
    }
    let scale = 10_u64.pow(u32::from(places));
    (units / scale, units % scale)
}

// Appends the minus of a number that is below zero.
fn write_minus(out: &mut Vec<u8>, number: i64) -> Result<(), NoMemory>
    ensures minus { Lengthens out.old.items out.new.items (minus_of number) result }
{
    if number < 0 {
        out.push(b'-')?;
    }
    Ok(())
}

// Appends a point and the decimals, with zeros in front; nothing where there are no decimals.
fn write_decimals(out: &mut Vec<u8>, places: u8, decimals: u64) -> Result<(), NoMemory>
    ensures decimals { Lengthens out.old.items out.new.items (if places == 0 then [] else 46 ∷ padded places decimals) result }
{
    if places == 0 {
        return Ok(());
    }
    let mut digits = [0; DIGITS];
    let start = write_digits(decimals, &mut digits, DIGITS);
    out.push(b'.')?;
    write_zeros(out, usize::from(places).saturating_sub(DIGITS - start))?;
    out.extend_from_slice(&digits[start..])?;
    Ok(())
}

// Appends this many zeros.
fn write_zeros(out: &mut Vec<u8>, count: usize) -> Result<(), NoMemory>
    requires { count ≤ 256 }
    ensures zeros { Lengthens out.old.items out.new.items (replicate count 48) result }
{
    out.extend_from_slice(&ZEROS[..count])?;
    Ok(())
}
