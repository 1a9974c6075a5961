//! Where an answer differs from the expected one.

use crate::visited::Visited;
use case_files::Call;
use std::fmt;

/// Writes the first line in which two outputs differ, and nothing if they are the same.
pub(crate) fn write_output<W: fmt::Write>(
    wanted: &[u8],
    came: &[u8],
    f: &mut fmt::Formatter<W>,
) -> fmt::Result {
    if wanted == came {
        return Ok(());
    }
    write!(f, ";")?;
    write_line(wanted, came, f)
}

// Writes the first line in which two texts differ.
fn write_line<W: fmt::Write>(wanted: &[u8], came: &[u8], f: &mut fmt::Formatter<W>) -> fmt::Result {
    let same = same_lines(wanted, came);
    write!(
        f,
        " in line {} wanted `{}`, came `{}`",
        same.saturating_add(1),
        line(wanted, same).escape_ascii(),
        line(came, same).escape_ascii(),
    )
}

/// Writes how many bytes two disks have, and the first offset at which they differ; nothing if they are the same.
pub(crate) fn write_disk<W: fmt::Write>(
    wanted: &[u8],
    came: &[u8],
    f: &mut fmt::Formatter<W>,
) -> fmt::Result {
    if wanted == came {
        return Ok(());
    }
    let bytes = wanted.iter().zip(came);
    let same = bytes.take_while(|(byte, other)| byte == other).count();
    write!(
        f,
        "; the disk wanted has {} bytes, the one that came {}, and they differ at offset {same}",
        wanted.len(),
        came.len(),
    )
}

/// Writes how listeners differ from the expected ones, and nothing if they are the same.
pub(crate) fn write_listeners<W: fmt::Write>(
    wanted: &[Visited],
    came: &[Visited],
    f: &mut fmt::Formatter<W>,
) -> fmt::Result {
    let mut number: u64 = 0;
    for (wanted, came) in wanted.iter().zip(came) {
        number = number.saturating_add(1);
        write_ports(number, &wanted.ports, &came.ports, f)?;
        write_count(number, wanted.written.len(), came.written.len(), f)?;
        write_connections(number, &wanted.written, &came.written, f)?;
    }
    Ok(())
}

// Writes the ports that a listener was asked to listen on, if they differ.
fn write_ports<W: fmt::Write>(
    listener: u64,
    wanted: &[u64],
    came: &[u64],
    f: &mut fmt::Formatter<W>,
) -> fmt::Result {
    if wanted == came {
        return Ok(());
    }
    write!(
        f,
        "; listener {listener} wanted the ports {wanted:?}, came {came:?}"
    )
}

// Writes how many connections came to a listener, if another number was expected.
fn write_count<W: fmt::Write>(
    listener: u64,
    wanted: usize,
    came: usize,
    f: &mut fmt::Formatter<W>,
) -> fmt::Result {
    if wanted == came {
        return Ok(());
    }
    write!(
        f,
        "; listener {listener} wanted {wanted} connections, came {came}"
    )
}

// Writes of each connection of a listener that differs the first line that does.
fn write_connections<W: fmt::Write>(
    listener: u64,
    wanted: &[Vec<u8>],
    came: &[Vec<u8>],
    f: &mut fmt::Formatter<W>,
) -> fmt::Result {
    let mut number: u64 = 0;
    for (wanted, came) in wanted.iter().zip(came) {
        number = number.saturating_add(1);
        if wanted != came {
            write!(f, "; listener {listener}, connection {number}:")?;
            write_line(wanted, came, f)?;
        }
    }
    Ok(())
}

/// For each link whose calls differ from the expected ones, writes the first call that does; nothing if they are the same.
pub(crate) fn write_links<W: fmt::Write>(
    wanted: &[Vec<Call>],
    came: &[Vec<Call>],
    f: &mut fmt::Formatter<W>,
) -> fmt::Result {
    let mut number: u64 = 0;
    for (wanted, came) in wanted.iter().zip(came) {
        number = number.saturating_add(1);
        write_calls(number, wanted, came, f)?;
    }
    Ok(())
}

// Writes the first call of a link that differs.
fn write_calls<W: fmt::Write>(
    link: u64,
    wanted: &[Call],
    came: &[Call],
    f: &mut fmt::Formatter<W>,
) -> fmt::Result {
    if wanted == came {
        return Ok(());
    }
    let calls = wanted.iter().zip(came);
    let same = calls.take_while(|(call, other)| call == other).count();
    write!(f, "; link {link}, call {} wanted ", same.saturating_add(1))?;
    write_call(wanted.get(same), f)?;
    write!(f, ", came ")?;
    write_call(came.get(same), f)
}

// Writes a call; `none` if it is missing.
fn write_call<W: fmt::Write>(call: Option<&Call>, f: &mut fmt::Formatter<W>) -> fmt::Result {
    match call {
        Some(call) => write!(f, "`{call}`"),
        None => write!(f, "none"),
    }
}

// How many lines two texts have in common, from the first on.
fn same_lines(one: &[u8], other: &[u8]) -> usize {
    let lines = one.split_inclusive(|byte| *byte == b'\n');
    let others = other.split_inclusive(|byte| *byte == b'\n');
    lines
        .zip(others)
        .take_while(|(line, other)| line == other)
        .count()
}

// The line of a text with a number of lines before it, with its end; nothing if it has no such line.
fn line(text: &[u8], before: usize) -> &[u8] {
    text.split_inclusive(|byte| *byte == b'\n')
        .nth(before)
        .unwrap_or(b"")
}
