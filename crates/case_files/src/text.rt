//! A text of a case: as it stands, as pieces that are repeated, or what a file has.

ghost use Rattle.std.specs.Prelude.{◌≡◌, IfOk};
ghost use Rattle.case_files.specs.Texts.{joined_pieces};

use crate::data::read_file;
use crate::fault::CaseFault;
use crate::keys::{Keys, list_of, wrong_type};
use farm_ports::Folder;
use std::alloc::{AllocError, Global};
use toml::Value;

/// A text of a case.
#[derive(Clone, Copy)]
pub enum Text<'a> {
    /// As it stands.
    Whole(&'a str),
    /// Pieces one after another, each a list of its text and how many times it is repeated.
    Pieces(&'a [Value]),
    /// The bytes of the file at a path from the folder of the cases.
    File(&'a str),
}

impl<'a> Text<'a> {
    /// The text that is the value at a key.
    pub fn of(alloc: Global, key: &str, value: &'a Value) -> Result<Self, CaseFault> {
        match value {
            Value::String(text) => Ok(Text::Whole(text)),
            Value::Array(pieces) => Ok(Text::Pieces(pieces)),
            Value::Table(table) => {
                let file = Keys::of(alloc, table, &["file"], &[])?.text("file")?;
                Ok(Text::File(file.unwrap_or("")))
            }
            _ => Err(wrong_type(alloc, key)),
        }
    }
}

/// The text at a key.
pub fn text_at<'a>(keys: &Keys<'a>, key: &str) -> Result<Option<Text<'a>>, CaseFault> {
    match keys.value(key) {
        Some(value) => Ok(Some(Text::of(keys.alloc(), key, value)?)),
        None => Ok(None),
    }
}

/// The bytes of a text.
pub fn text_bytes<F: Folder>(
    alloc: Global,
    data: &mut F,
    text: Text<'_>,
) -> Result<Vec<u8>, CaseFault> {
    match text {
        Text::Whole(text) => Ok(Vec::from_slice(alloc, text.as_bytes())?),
        Text::Pieces(pieces) => Ok(joined(alloc, &pieces_of(alloc, pieces)?)?),
        Text::File(file) => read_file(alloc, data, file),
    }
}

/// The bytes of a text that may not be given, and is empty then.
pub fn given_bytes<F: Folder>(
    alloc: Global,
    data: &mut F,
    text: Option<Text<'_>>,
) -> Result<Vec<u8>, CaseFault> {
    match text {
        Some(text) => text_bytes(alloc, data, text),
        None => Ok(Vec::new(alloc)),
    }
}

// The pieces that values give.
fn pieces_of(alloc: Global, values: &[Value]) -> Result<Vec<(String, u32)>, CaseFault> {
    let mut pieces = Vec::new(alloc);
    for value in values {
        pieces.push(piece_of(alloc, value)?)?;
    }
    Ok(pieces)
}

// The piece that a value gives, a list of its text and its number.
fn piece_of(alloc: Global, value: &Value) -> Result<(String, u32), CaseFault> {
    match list_of(alloc, "a piece", value)? {
        [Value::String(text), Value::Integer(times)] => match u32::try_from(*times) {
            Ok(times) => Ok((String::from_str(alloc, text)?, times)),
            Err(_) => Err(wrong_type(alloc, "a piece")),
        },
        _ => Err(wrong_type(alloc, "a piece")),
    }
}

// The pieces one after another.
fn joined(alloc: Global, pieces: &[(String, u32)]) -> Result<Vec<u8>, AllocError>
    ensures joined { IfOk result (λ bytes. bytes.items ≡ joined_pieces pieces.now) }
{
    let mut bytes = Vec::new(alloc);
    for (piece, times) in pieces {
        bytes.extend_from_slice(piece.repeat(alloc, *times as usize)?.as_bytes())?;
    }
    Ok(bytes)
}
