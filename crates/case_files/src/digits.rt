//! Bytes that are written as hexadecimal digits.

ghost use Rattle.std.specs.Prelude.{◌≡◌, IfOk, Ok};
ghost use Rattle.hex.specs.Hex.{decode_of};
ghost use Rattle.case_files.specs.Digits.{without_spaces};

use crate::fault::CaseFault;
use hex::FromHexError;
use std::alloc::Global;

/// The bytes that digits give, two a byte. Spaces are passed over.
pub(crate) fn digit_bytes(alloc: Global, text: &str) -> Result<Vec<u8>, CaseFault>
    ensures bytes { IfOk result (λ bytes. decode_of (without_spaces text.now) ≡ Ok bytes.items) }
{
    let digits: Vec<u8> = text.bytes().filter(|byte| *byte != b' ').collect(alloc)?;
    match hex::decode(alloc, digits) {
        Ok(bytes) => Ok(bytes),
        Err(FromHexError::OutOfMemory) => Err(CaseFault::NoMemory),
        Err(_) => Err(CaseFault::NotDigits(String::from_str(alloc, text)?)),
    }
}
