//! The opening of a disk's file: regular, its own, and on the disk as it reads.

use std::fs::{self, File, OpenOptions};
use std::io::{self, ErrorKind};
use std::os::fd::AsRawFd;
use std::rt::Files;

// The greatest descriptor of a standard stream.
const STANDARD_ERROR: i32 = 2;

/// Opens the file at a path for reads and writes, and creates it empty where it is missing. A link is followed.
///
/// Until it is dropped no other open of the file gets the lock, be it of this process or another. What the file holds is on the
/// disk as it reads, and its name is in its folder.
pub(crate) fn open_file<R: Files<File = File> + AllocGlobal>(
    rt: &R,
    path: &str,
) -> io::Result<File> {
    let file = above_streams(open_or_make(rt, path)?)?;
    file.try_lock()?;
    settle(&file)?;
    sync_folder(rt, path)?;
    Ok(file)
}

// Opens the file or makes it. What is no regular file is refused before an open that could wait for its other end.
fn open_or_make<R: Files<File = File>>(rt: &R, path: &str) -> io::Result<File> {
    refuse_other_kinds(rt, path)?;
    let file = OpenOptions::new()
        .read(true)
        .write(true)
        .create(true)
        .open(rt, path)?;
    only_regular(file.metadata()?.is_file())?;
    Ok(file)
}

// What stands at the path is a regular file, or nothing.
fn refuse_other_kinds<R: Files>(rt: &R, path: &str) -> io::Result<()> {
    match fs::metadata(rt, path) {
        Ok(found) => only_regular(found.is_file()),
        Err(error) if error.kind() == ErrorKind::NotFound => Ok(()),
        Err(error) => Err(error),
    }
}

fn only_regular(is_file: bool) -> io::Result<()> {
    if is_file {
        Ok(())
    } else {
        Err(io::Error::from(ErrorKind::Unsupported))
    }
}

// The file on a descriptor that is no standard stream's. Where one of these is closed, the first file to be opened takes its
// place, and what the program prints there would land in the file.
fn above_streams(file: File) -> io::Result<File> {
    if file.as_raw_fd() > STANDARD_ERROR {
        return Ok(file);
    }
    file.try_clone()
}

// Makes what reads give what the disk has. After a sync that failed the system's copies may hold what the disk lacks.
fn settle(file: &File) -> io::Result<()> {
    file.sync_all()?;
    match libc::posix_fadvise(file.as_raw_fd(), 0, 0, libc::POSIX_FADV_DONTNEED) {
        0 => Ok(()),
        error => Err(io::Error::from_raw_os_error(error)),
    }
}

// Makes the file's name last, in the folder in which it lies, also where a link leads there.
fn sync_folder<R: Files<File = File> + AllocGlobal>(rt: &R, path: &str) -> io::Result<()> {
    let mut folder = fs::canonicalize(rt, path)?;
    folder.pop();
    fs::open(rt, folder.as_str())?.sync_all()
}
