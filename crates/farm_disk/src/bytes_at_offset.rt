//! Bytes over others, and bytes out of others, at an offset.

ghost use Rattle.std.specs.Prelude.{◌≡◌, ◌≤◌, ◌++◌, ◌+◌, ◌-◌, IsOk, OnErr, OnOk, drop, length, min, replicate, take, vec_capacity};
ghost use Rattle.farm_disk.specs.Images.{overlaid};

use farm_base::NoMemory;

// Makes a file as long as `end`, with `filler` past its end, where it is shorter.
fn lengthen(file: &mut Vec<u8>, end: usize, filler: u8) -> Result<(), NoMemory>
    ensures longer { OnOk result (file.new.items ≡ file.old.items ++ replicate (end - length file.old.items) filler) }
    ensures stays { OnErr result (file.new.items ≡ file.old.items) }
    ensures fits { end ≤ vec_capacity file.old → IsOk result }
    ensures grows { vec_capacity file.old ≤ vec_capacity file.new }
{
    if file.len() < end {
        file.resize(end, filler)?;
    }
    Ok(())
}

// Puts bytes in the place of as many that stand at an offset.
fn put(file: &mut [u8], from: usize, bytes: &[u8])
    requires { from + length bytes.now ≤ length file.old }
    ensures { file.new ≡ take from file.old ++ bytes.now ++ drop (from + length bytes.now) file.old }
{
    file[from..from + bytes.len()].copy_from_slice(bytes);
}

/// Puts bytes over those of a file at an offset, and `filler` between its end and an offset past it. No byte changes nothing.
///
/// Where there is no memory the file stays as it was.
pub(crate) fn overlay(file: &mut Vec<u8>, at: u64, bytes: &[u8], filler: u8) -> Result<(), NoMemory>
    ensures over { OnOk result (file.new.items ≡ overlaid filler at bytes.now file.old.items) }
    ensures stays { OnErr result (file.new.items ≡ file.old.items) }

    // With room it doesn't fail.
    ensures fits { at + length bytes.now ≤ vec_capacity file.old → IsOk result }
    ensures grows { vec_capacity file.old ≤ vec_capacity file.new }
{
    if bytes.is_empty() {
        return Ok(());
    }
    let from = at as usize;
    let end = from.checked_add(bytes.len()).ok_or(NoMemory)?;
    lengthen(file, end, filler)?;
    put(file, from, bytes);
    Ok(())
}

/// Copies as many bytes from an offset on as there is room for, and says how many.
pub(crate) fn copy_at(file: &[u8], at: u64, into: &mut [u8]) -> usize
    ensures whole { result ≡ min (length into.old) (length file.now - at) }
    ensures copied { take result into.new ≡ take result (drop at file.now) }
{
    let left = &file[file.len().min(at as usize)..];
    let count = into.len().min(left.len());
    into[..count].copy_from_slice(&left[..count]);
    count
}
