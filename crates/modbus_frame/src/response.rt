//! Responses.

ghost use Rattle.std.specs.Prelude.{◌^◌, ◌≡◌, ◌+◌, ◌-◌, ◌*◌, ◌<◌, ◌≤◌, ◌++◌, ℕ, IfErr, IfOk, IsOk, if◌then◌else◌, length, List, MatchResult, nat_lt};
ghost use Rattle.modbus_frame.specs.declared.expect.TheConstants.{MOST_QUANTITY};
ghost use Rattle.modbus_frame.specs.declared.frame.Frame.TheVariants.{Exception, Need};
ghost use Rattle.modbus_frame.specs.Frames.{IsFrame, length_given, registers_of};
ghost use Rattle.modbus_frame.specs.Fields.{IsDecided, byte_at, frame_answer, number_at, words_of};
ghost use Rattle.modbus_frame.specs.Requests.{IsExpect};
ghost use Rattle.modbus_frame.specs.Stages.{GivesLength, answer_at_count, answer_from_unit};

use crate::{Expect, Frame, MOST_QUANTITY, Registers};

// The fewest bytes of a response, which those with an exception code have.
const LEAST_FRAME: usize = 9;
// How many bytes come before what the length counts.
const BEFORE_LENGTH: usize = 6;
// How many bytes follow the length in a response with an exception code: the unit, the function and the code.
pub(crate) const EXCEPTION_LENGTH: u16 = 3;
// What a response with an exception code adds to the function.
pub(crate) const EXCEPTION: u8 = 128;

/// What the bytes that were received so far are as a response to a request.
///
/// The function of the request is 3 or 4, and there are from 1 to 125 registers. Each byte is looked at once at most. Bytes after a
/// whole response aren't looked at.
pub fn read_response(bytes: &[u8], expect: &Expect) -> Frame
    requires expect { IsExpect expect.now }
    ensures frame { result ≡ frame_answer expect.now bytes.now }
    ensures meaning { IsFrame expect.now bytes.now result }
    ensures stays { (more : List ℕ) → IsDecided result → frame_answer expect.now (bytes.now ++ more) ≡ result }
{
    let expect = *expect;
    match read_length(bytes, expect) {
        Ok(size) => read_from_unit(bytes, expect, size),
        Err(frame) => frame,
    }
}

// The length that the first six bytes give, where the fields up to it agree; else what the bytes are.
#[tactic(auto, unfolding(crate::specs::Fields::frame_answer, crate::specs::Fields::wrong_field))]
fn read_length(bytes: &[u8], expect: Expect) -> Result<u16, Frame>
    requires expect { IsExpect expect }
    ensures length { IfOk result (GivesLength expect bytes.now) }
    ensures agree { IsOk result → frame_answer expect bytes.now ≡ answer_from_unit expect bytes.now }
    ensures decided { IfErr result (λ frame. frame ≡ frame_answer expect bytes.now) }

    // The range of its type, on which the meaning of a wrong transaction rests.
    ensures fits { expect.transaction < 2 ^ 16 }
{
    let transaction = number_at(bytes, 0)?;
    if transaction != expect.transaction {
        return Err(Frame::Wrong(1));
    }
    let protocol = number_at(bytes, 2)?;
    if protocol != 0 {
        return Err(Frame::Wrong(2));
    }
    let size = number_at(bytes, 4)?;
    if size != EXCEPTION_LENGTH && size != EXCEPTION_LENGTH + 2 * u16::from(expect.quantity) {
        return Err(Frame::Wrong(3));
    }
    Ok(size)
}

// The number of two bytes among the first six, or how many bytes have to follow where they aren't both there.
fn number_at(bytes: &[u8], offset: usize) -> Result<u16, Frame>
    requires { offset ≤ 4 }
    ensures { MatchResult result (λ number. (offset + 2 ≤ length bytes.now) × (number ≡ number_at offset bytes.now)) (λ frame. (length bytes.now < offset + 2) × (frame ≡ Need (LEAST_FRAME - length bytes.now))) }
{
    if bytes.len() < offset + 2 {
        return Err(Frame::Need(LEAST_FRAME - bytes.len()));
    }
    Ok(u16::from_be_bytes([bytes[offset], bytes[offset + 1]]))
}

// What the bytes are from the unit on, after a length that a response has.
fn read_from_unit(bytes: &[u8], expect: Expect, size: u16) -> Frame
    requires expect { IsExpect expect }
    requires length { GivesLength expect bytes.now size }
    ensures { result ≡ answer_from_unit expect bytes.now }
{
    let whole = BEFORE_LENGTH + usize::from(size);
    let Some(unit) = bytes.get(6) else {
        return Frame::Need(whole - bytes.len());
    };
    if *unit != expect.unit {
        return Frame::Wrong(4);
    }
    let Some(function) = bytes.get(7) else {
        return Frame::Need(whole - bytes.len());
    };
    if *function == expect.function && size != EXCEPTION_LENGTH {
        read_registers(bytes, expect, whole)
    } else if *function == expect.function + EXCEPTION && size == EXCEPTION_LENGTH {
        read_exception(bytes)
    } else {
        Frame::Wrong(5)
    }
}

// What the bytes are after the function asked for, with the length of the registers.
fn read_registers(bytes: &[u8], expect: Expect, whole: usize) -> Frame
    requires expect { IsExpect expect }
    requires there { 8 ≤ length bytes.now }
    requires function { byte_at 7 bytes.now ≡ expect.function }
    requires given { length_given bytes.now ≡ 3 + 2 * expect.quantity }
    requires whole { whole ≡ 9 + 2 * expect.quantity }
    ensures { result ≡ answer_at_count expect bytes.now }
{
    match bytes.get(8) {
        Some(count) if *count != 2 * expect.quantity => Frame::Wrong(6),
        Some(_) if whole <= bytes.len() => {
            Frame::Words(registers(&bytes[9..], expect.quantity), whole)
        }
        _ => Frame::Need(whole - bytes.len()),
    }
}

// What the bytes are after the function of an exception, with the length of one.
fn read_exception(bytes: &[u8]) -> Frame
    requires { 8 ≤ length bytes.now }
    ensures { result ≡ (if nat_lt (length bytes.now) LEAST_FRAME then Need (LEAST_FRAME - length bytes.now) else Exception (byte_at 8 bytes.now) LEAST_FRAME) }
{
    match bytes.get(8) {
        Some(code) => Frame::Exception(*code, LEAST_FRAME),
        None => Frame::Need(LEAST_FRAME - bytes.len()),
    }
}

// The registers that bytes begin with.
fn registers(bytes: &[u8], count: u8) -> Registers
    requires most { count ≤ MOST_QUANTITY }
    requires there { 2 * count ≤ length bytes.now }
    ensures { result ≡ registers_of (words_of count bytes.now) }
{
    let mut words = [0; MOST_QUANTITY as usize];
    for i in 0..usize::from(count) {
        words[i] = u16::from_be_bytes([bytes[2 * i], bytes[2 * i + 1]]);
    }
    Registers { count, words }
}
