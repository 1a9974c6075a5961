//! A file of the system that is opened at the first call on it.

ghost use Rattle.std.specs.Prelude.{◌≡◌, ◌≤◌, length, string_bytes, IfOk};

use crate::opening::open_file;
use std::fs::File;
use std::io::{self, ErrorKind};
use std::marker::Model;
use std::os::unix::fs::FileExt;
use std::rt::Files;

// The greatest offset that the system takes.
const MOST_OFFSET: u64 = i64::MAX as u64;

/// The file at a path. A call on it opens it where it isn't open, and leaves it closed where it can't.
#[derive(Drop)]
pub struct LateFile<R> {
    rt: R,
    path: String,
    file: Option<File>,
}

impl<R> Model for LateFile<R> {
    ghost use Rattle.std.specs.Prelude.{ℕ, List, string_bytes};

    ghost Value = { List ℕ };

    ghost view = { λ file. string_bytes file.path };
}

impl<R: Files<File = File> + AllocGlobal> LateFile<R> {
    /// The file at this path, not opened yet.
    pub(crate) fn new(rt: R, path: String) -> Self
        ensures { result ≡ string_bytes path }
    {
        LateFile {
            rt,
            path,
            file: None,
        }
    }

    // The file, taken out of its place, and opened where it isn't open.
    fn take(&mut self) -> io::Result<File>
        ensures { self.new ≡ self.old }
    {
        match self.file.take() {
            Some(file) => Ok(file),
            None => open_file(&self.rt, self.path.as_str()),
        }
    }

    /// How many bytes it holds.
    pub(crate) fn size(&mut self) -> io::Result<u64>
        ensures { self.new ≡ self.old }
    {
        let file = self.take()?;
        let found = file.metadata();
        self.file = Some(file);
        Ok(found?.len())
    }

    /// Reads bytes from an offset on, and says how many; 0 is the end, or a buffer without room.
    pub(crate) fn read_at(&mut self, at: u64, into: &mut [u8]) -> io::Result<usize>
        ensures within { IfOk result (λ count. count ≤ length into.new) }
        ensures path { self.new ≡ self.old }
    {
        let file = self.take()?;
        let answer = read_some(&file, at, into);
        self.file = Some(file);
        answer
    }

    /// Writes all of `bytes` at an offset.
    pub(crate) fn write_at(&mut self, at: u64, bytes: &[u8]) -> io::Result<()>
        ensures { self.new ≡ self.old }
    {
        let file = self.take()?;
        let answer = write_whole(&file, at, bytes);
        self.file = Some(file);
        answer
    }

    /// Makes its bytes and its length last.
    pub(crate) fn sync(&mut self) -> io::Result<()>
        ensures { self.new ≡ self.old }
    {
        let file = self.take()?;
        let answer = file.sync_data();
        self.file = Some(file);
        answer
    }
}

// Reads once, and again where a signal interrupts the call.
fn read_some(file: &File, at: u64, into: &mut [u8]) -> io::Result<usize>
    ensures { IfOk result (λ count. count ≤ length into.new) }
{
    check_offset(at)?;
    for _ in 0..u64::MAX {
        match file.read_at(into, at) {
            Err(error) if error.kind() == ErrorKind::Interrupted => {}
            answer => return answer,
        }
    }
    Err(io::Error::from(ErrorKind::Interrupted))
}

// Writes all, in as many calls as it takes; one that writes nothing of some bytes fails, and an interrupted one is made again.
fn write_whole(file: &File, at: u64, bytes: &[u8]) -> io::Result<()> {
    check_offset(at)?;
    file.write_all_at(bytes, at)
}

fn check_offset(at: u64) -> io::Result<()> {
    if at <= MOST_OFFSET {
        Ok(())
    } else {
        Err(io::Error::from(ErrorKind::InvalidInput))
    }
}
