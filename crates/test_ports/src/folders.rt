//! Folders and clocks, in memory and real.

ghost use Rattle.std.specs.Prelude.{IfOk};
ghost use Rattle.farm_base.specs.Known.{WhereKnown};
ghost use Rattle.farm_ports.specs.Folders.{ReadsFile};

use farm_base::NoMemory;
use farm_ports::{Clock, DirFolder, Files, Fixed, Folder, FolderFault, PortFault, SystemClock};
use std::alloc::{AllocError, Global};
use std::fs;
use std::test::Fail;
use test_checks::{Checks, shared};

// The first four bytes of a file.
fn first_four<F: Folder>(folder: &mut F, alloc: Global, name: &str) -> Result<Vec<u8>, FolderFault>
    ensures known { IfOk result (λ bytes. WhereKnown (F.files folder.new) (ReadsFile name.now 4 bytes.items)) }
{
    folder.read(alloc, name, 4)
}

// A name of a file, and its first four bytes or why it isn't read.
type Read = (&'static str, Result<&'static [u8], FolderFault>);

// One read of a folder's file answers as its row says.
fn check_read<F: Folder, R: Print>(
    checks: &mut Checks<'_, R>,
    alloc: Global,
    folder: &mut F,
    (name, want): &Read,
) {
    let read = first_four(folder, alloc, name);
    match want {
        Ok(bytes) => checks.same_at(*name, read.as_deref(), Ok(*bytes)),
        Err(fault) => checks.same_at(*name, read.as_deref(), Err(fault)),
    }
}

// Reads of a folder's files answer as their rows say.
fn check_files<F: Folder, R: Print>(
    checks: &mut Checks<'_, R>,
    alloc: Global,
    folder: &mut F,
    reads: &[Read],
) {
    for read in reads {
        check_read(checks, alloc, folder, read);
    }
}

// A file of a name and bytes.
fn file(alloc: Global, name: &str, bytes: &[u8]) -> Result<(String, Vec<u8>), AllocError> {
    let bytes = bytes.to_vec(alloc)?;
    match String::from_str(alloc, name) {
        Ok(name) => Ok((name, bytes)),
        Err(fault) => {
            drop(bytes);
            Err(fault)
        }
    }
}

// A long file, two files of one name, and a file without a byte; the second read fails.
fn four_files(alloc: Global) -> Result<Files, NoMemory> {
    let files = vec![in alloc;
        file(alloc, "long", b"abcdef")?,
        file(alloc, "twice", b"one")?,
        file(alloc, "twice", b"two")?,
        file(alloc, "none", b"")?,
    ]?;
    Files::new(alloc, files, vec![in alloc; 2]?)
}

const IN_MEMORY: &[Read] = &[
    ("lone", Err(PortFault::Failed)),
    ("long", Err(PortFault::Failed)),
    ("long", Ok(b"abcd")),
    ("twice", Ok(b"one")),
    ("none", Ok(b"")),
];

#[test]
fn a_folder_in_memory_is_read_by_name(rt: HostRuntime) -> Result<(), Fail> {
    let mut checks = Checks::new(&rt);
    let mut files = shared(four_files(rt.alloc())?);
    check_files(&mut checks, rt.alloc(), &mut files, IN_MEMORY);
    checks.same_at("faults", files.faults(), 2);
    drop(files);
    Ok(checks.end()?)
}

// A folder of the system below out/, where tests write and which is never committed.
fn folder_of<'a>(rt: &'a HostRuntime, path: &str) -> Result<DirFolder<&'a HostRuntime>, Fail> {
    Ok(shared(DirFolder::new(rt, String::from_str(rt.alloc(), path)?)))
}

// Writes two files.
fn write_site(rt: &HostRuntime) -> Result<(), Fail> {
    for path in ["out", "out/site", "out/site/tables"] {
        let _ = fs::create_dir(rt, path);
    }
    fs::write(rt, "out/site/tables/long", "abcdef")?;
    fs::write(rt, "out/site/short", "abc")?;
    Ok(())
}

const IN_THE_SYSTEM: &[Read] = &[("tables/long", Ok(b"abcd")), ("short", Ok(b"abc"))];

// A name that no file has, a directory, and a name that the system refuses.
const REFUSED: &[Read] = &[
    ("long", Err(PortFault::Failed)),
    ("tables", Err(PortFault::Failed)),
    ("a\0b", Err(PortFault::Failed)),
];

// Each read that is refused counts a fault, from 1 on.
fn check_refused(
    checks: &mut Checks<'_, HostRuntime>,
    alloc: Global,
    folder: &mut DirFolder<&HostRuntime>,
) {
    for (before, read) in REFUSED.iter().enumerate() {
        check_read(checks, alloc, folder, read);
        checks.same_at(read.0, folder.faults(), before as u64 + 1);
    }
}

#[test]
fn a_folder_of_the_system_is_read_by_name(rt: HostRuntime) -> Result<(), Fail> {
    let mut checks = Checks::new(&rt);
    write_site(&rt)?;
    let mut folder = folder_of(&rt, "out/site")?;
    check_files(&mut checks, rt.alloc(), &mut folder, IN_THE_SYSTEM);
    checks.same_at("no fault", folder.faults(), 0);
    check_refused(&mut checks, rt.alloc(), &mut folder);
    drop(folder);
    Ok(checks.end()?)
}

// More than four megabytes, in a list whose length is no multiple of what a read takes at once.
fn large(alloc: Global) -> Result<Vec<u8>, AllocError> {
    let mut bytes = Vec::new(alloc);
    for index in 0..4_200_001u32 {
        bytes.push((index % 251) as u8)?;
    }
    Ok(bytes)
}

// Bytes that were written to a file and read from it.
fn read_again(rt: &HostRuntime, bytes: &[u8]) -> Result<Vec<u8>, Fail> {
    let _ = fs::create_dir(rt, "out");
    fs::write(rt, "out/large", bytes)?;
    let mut folder = folder_of(rt, "out")?;
    let read = folder.read(rt.alloc(), "large", usize::MAX);
    drop(folder);
    Ok(read?)
}

#[test]
fn a_large_file_is_read_whole(rt: HostRuntime) -> Result<(), Fail> {
    let mut checks = Checks::new(&rt);
    let written = large(rt.alloc())?;
    let read = read_again(&rt, &written)?;
    checks.same(read.as_slice() == written.as_slice(), true);
    drop(read);
    drop(written);
    Ok(checks.end()?)
}

// What a clock gives.
fn given<C: Clock>(clock: &C) -> i64
    ensures { C.may_give clock.now result }
{
    clock.now()
}

const MOMENTS: &[i64] = &[1_790_000_000, 0, -86_400];

const TIMES: &[&str] = &["once", "again"];

// A clock gives this moment each time.
fn check_clock<C: Clock, R: Print>(checks: &mut Checks<'_, R>, clock: &C, moment: i64) {
    for time in TIMES {
        checks.same_at(*time, given(clock), moment);
    }
}

#[test]
fn a_fixed_clock_gives_its_moment(rt: HostRuntime) -> Result<(), Fail> {
    let mut checks = Checks::new(&rt);
    for moment in MOMENTS {
        let clock = shared(Fixed::new(rt.alloc(), *moment)?);
        check_clock(&mut checks, &clock, *moment);
    }
    Ok(checks.end()?)
}

#[test]
fn the_clock_of_the_system_is_past_2020(rt: HostRuntime) -> Result<(), Fail> {
    let mut checks = Checks::new(&rt);
    let clock = shared(SystemClock::new(&rt));
    checks.same(given(&clock) > 1_600_000_000, true);
    Ok(checks.end()?)
}
