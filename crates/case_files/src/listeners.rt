//! The listeners of a run, in memory, and what is expected of them.

use crate::fault::CaseFault;
use crate::input::pieces_of;
use crate::keys::{Keys, numbers_of};
use crate::text::{Text, text_at, text_bytes};
use farm_listeners::{Talk, Visit, Visits};
use farm_ports::Folder;
use std::alloc::Global;
use toml::Value;

// What a list of visits has in a place where nobody comes.
const IDLE: &str = "idle";

/// A listener of a run.
#[derive(Clone, Copy)]
pub struct RunListener<'a> {
    /// What its accepts give, one after another.
    pub visits: &'a [Value],
    /// The listens and accepts that fail, by their numbers from 1.
    pub fails: &'a [Value],
    /// The ports that it is expected to be asked to listen on, in order; they aren't compared if they aren't given.
    pub ports: Option<&'a [Value]>,
}

impl<'a> RunListener<'a> {
    /// What a table of `listeners` has.
    pub fn of(alloc: Global, value: &'a Value) -> Result<Self, CaseFault> {
        let keys = Keys::of_value(alloc, "listeners", value, &["visits"], &["fails", "ports"])?;
        Ok(RunListener {
            visits: keys.list("visits")?,
            fails: keys.list("fails")?,
            ports: keys.given_list("ports")?,
        })
    }
}

/// A connection that comes to a listener.
#[derive(Clone, Copy)]
pub struct Connection<'a> {
    /// What each take gives at most: a list of texts.
    pub pieces: &'a [Value],
    /// The number of bytes of each piece in which each of these texts comes; one piece if it isn't given.
    pub piece_bytes: Option<u64>,
    /// The takes that fail, by their numbers from 1.
    pub bad_takes: &'a [Value],
    /// The puts that fail, by their numbers from 1.
    pub bad_puts: &'a [Value],
    /// The bytes that are expected on it; it isn't expected to come if they aren't given.
    pub written: Option<Text<'a>>,
}

impl<'a> Connection<'a> {
    /// What a place of `visits` has; `None` if it is idle.
    pub fn of(alloc: Global, value: &'a Value) -> Result<Option<Self>, CaseFault> {
        if value.as_str() == Some(IDLE) {
            return Ok(None);
        }
        let optional = ["pieces", "piece_bytes", "bad_takes", "bad_puts", "written"];
        let keys = Keys::of_value(alloc, "visits", value, &[], &optional)?;
        Ok(Some(Connection {
            pieces: keys.list("pieces")?,
            piece_bytes: keys.natural("piece_bytes")?,
            bad_takes: keys.list("bad_takes")?,
            bad_puts: keys.list("bad_puts")?,
            written: text_at(&keys, "written")?,
        }))
    }

    // The connection, in memory.
    fn talk<F: Folder>(&self, alloc: Global, data: &mut F) -> Result<Talk, CaseFault> {
        let pieces = sent_pieces(alloc, data, self.pieces, self.piece_bytes)?;
        let bad_takes = numbers_of(alloc, "bad_takes", self.bad_takes)?;
        let bad_puts = numbers_of(alloc, "bad_puts", self.bad_puts)?;
        Ok(Talk::new(alloc, pieces, bad_takes, bad_puts)?)
    }
}

/// The listeners of a run, in memory.
pub fn listeners_of<F: Folder>(
    alloc: Global,
    data: &mut F,
    listeners: &[Value],
) -> Result<Vec<Visits>, CaseFault> {
    let mut all = Vec::new(alloc);
    for value in listeners {
        let listener = RunListener::of(alloc, value)?;
        all.push(visits_of(alloc, data, &listener)?)?;
    }
    Ok(all)
}

// A listener, in memory.
fn visits_of<F: Folder>(
    alloc: Global,
    data: &mut F,
    listener: &RunListener<'_>,
) -> Result<Visits, CaseFault> {
    let fails = numbers_of(alloc, "fails", listener.fails)?;
    let mut items = Vec::new(alloc);
    for value in listener.visits {
        items.push(visit_of(alloc, data, value)?)?;
    }
    Ok(Visits::new(alloc, items, fails)?)
}

// A place of the visits of a listener, in memory.
fn visit_of<F: Folder>(alloc: Global, data: &mut F, value: &Value) -> Result<Visit, CaseFault> {
    match Connection::of(alloc, value)? {
        Some(connection) => Ok(Visit::Conn(connection.talk(alloc, data)?)),
        None => Ok(Visit::Idle),
    }
}

// The pieces of a connection: each of its texts in one piece, or in pieces of a number of bytes.
fn sent_pieces<F: Folder>(
    alloc: Global,
    data: &mut F,
    values: &[Value],
    piece_bytes: Option<u64>,
) -> Result<Vec<Vec<u8>>, CaseFault> {
    let mut pieces = Vec::new(alloc);
    for value in values {
        let text = text_bytes(alloc, data, Text::of(alloc, "pieces", value)?)?;
        match piece_bytes {
            Some(size) => pieces.append(&mut pieces_of(alloc, &text, (size as usize).max(1))?)?,
            None => pieces.push(text)?,
        }
    }
    Ok(pieces)
}

/// The bytes that are expected on the connections of a listener that are expected to come, one after another.
pub fn written_of<F: Folder>(
    alloc: Global,
    data: &mut F,
    visits: &[Value],
) -> Result<Vec<Vec<u8>>, CaseFault> {
    let mut all = Vec::new(alloc);
    for value in visits {
        if let Some(text) = wanted_on(alloc, value)? {
            all.push(text_bytes(alloc, data, text)?)?;
        }
    }
    Ok(all)
}

// What is expected on the connection at a place of visits.
fn wanted_on<'a>(alloc: Global, value: &'a Value) -> Result<Option<Text<'a>>, CaseFault> {
    match Connection::of(alloc, value)? {
        Some(connection) => Ok(connection.written),
        None => Ok(None),
    }
}
