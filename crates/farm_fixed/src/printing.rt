//! The text of a number of units, written from its end into a buffer on the stack.

ghost use Rattle.std.specs.Prelude.{◌≡◌, ◌+◌, ◌<◌, ◌≤◌, ◌^◌, drop, replicate};
ghost use Rattle.std.specs.Int.RustNames.{unsigned_abs};
ghost use Rattle.farm_fixed.specs.Printing.{padded, magnitude_text, quantity_text};

use itoa::write_digits;

/// The size of the buffer. The longest text, of a minus, 18 digits, a point and 5 decimals, has 25 bytes.
pub const ROOM: usize = 32;

// Writes the decimals at the end of a buffer of zeros, and returns where they start.
fn write_decimals(decimals: u64, places: usize, buffer: &mut [u8]) -> usize
    requires some { 0 < places }
    requires places { places ≤ 5 }
    requires decimals { decimals < 10 ^ places }
    requires blank { buffer.old ≡ replicate 32 48 }
    ensures start { result + places ≡ 32 }
    ensures text { drop result buffer.new ≡ padded places decimals }
{
    write_digits(decimals, buffer, ROOM);
    ROOM - places
}

// Writes a magnitude at the end of a buffer of zeros, and returns where it starts.
fn write_magnitude(units: u64, places: usize, buffer: &mut [u8]) -> usize
    requires units { units ≤ 10 ^ 17 }
    requires places { places ≤ 5 }
    requires blank { buffer.old ≡ replicate 32 48 }
    ensures room { 0 < result }
    ensures within { result ≤ 32 }
    ensures text { drop result buffer.new ≡ magnitude_text places units }
{
    if places == 0 {
        return write_digits(units, buffer, ROOM);
    }
    let scale = 10_u64.pow(places as u32);
    let point = write_decimals(units % scale, places, buffer) - 1;
    buffer[point] = b'.';
    write_digits(units / scale, buffer, point)
}

/// Writes a number of units at the end of a buffer of zeros, and returns where its text starts.
pub(crate) fn write_text(units: i64, places: usize, buffer: &mut [u8]) -> usize
    requires units { unsigned_abs units ≤ 10 ^ 17 }
    requires places { places ≤ 5 }
    requires blank { buffer.old ≡ replicate 32 48 }
    ensures within { result ≤ 32 }
    ensures text { drop result buffer.new ≡ quantity_text places units }
{
    let start = write_magnitude(units.unsigned_abs(), places, buffer);
    if units < 0 {
        buffer[start - 1] = b'-';
        return start - 1;
    }
    start
}
