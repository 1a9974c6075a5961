//! The patches of a disk: bytes that are written over what is left of it.

ghost use Rattle.std.specs.Prelude.{◌≡◌, IfOk, Ok};
ghost use Rattle.hex.specs.Hex.{decode_of};
ghost use Rattle.case_files.specs.Digits.{without_spaces};

use crate::digits::digit_bytes;
use crate::fault::CaseFault;
use crate::keys::{list_of, wrong_type};
use std::alloc::Global;
use toml::Value;

/// Bytes that are written over those of a disk.
#[derive(Drop)]
pub struct Patch {
    /// The offset of the first of them.
    pub offset: usize,
    /// The bytes.
    pub bytes: Vec<u8>,
}

impl Patch {
    // The patch that a value is, a list of its offset and its digits.
    fn of(alloc: Global, value: &Value) -> Result<Self, CaseFault> {
        match list_of(alloc, "patch", value)? {
            [Value::Integer(offset), Value::String(digits)] => match usize::try_from(*offset) {
                Ok(offset) => Patch::at(alloc, offset, digits),
                Err(_) => Err(wrong_type(alloc, "patch")),
            },
            _ => Err(wrong_type(alloc, "patch")),
        }
    }

    // The patch at an offset with the bytes that digits give.
    fn at(alloc: Global, offset: usize, digits: &str) -> Result<Self, CaseFault>
        ensures offset { IfOk result (λ patch. patch.offset ≡ offset) }
        ensures bytes { IfOk result (λ patch. decode_of (without_spaces digits.now) ≡ Ok patch.bytes.items) }
    {
        Ok(Patch {
            offset,
            bytes: digit_bytes(alloc, digits)?,
        })
    }
}

/// The patches that values are, each a list of its offset and its digits.
pub fn patches_of(alloc: Global, values: &[Value]) -> Result<Vec<Patch>, CaseFault> {
    let mut patches = Vec::new(alloc);
    for value in values {
        patches.push(Patch::of(alloc, value)?)?;
    }
    Ok(patches)
}
