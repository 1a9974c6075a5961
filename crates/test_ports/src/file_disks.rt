//! A disk over a file of the system: what it makes, keeps and refuses.

use crate::disk_calls::{Call, Calls, check_call, check_calls};
use farm_disk::FileDisk;
use farm_ports::Failed;
use std::fs;
use std::os::unix::fs::symlink;
use std::test::Fail;
use test_checks::{Checks, shared};

// A disk over the file at a path, not opened yet.
fn over<'a>(rt: &'a HostRuntime, path: &str) -> Result<FileDisk<&'a HostRuntime>, Fail> {
    Ok(shared(FileDisk::new(rt, String::from_str(rt.alloc(), path)?)))
}

// Leaves no file of this name, which lies below `out`.
fn clear(rt: &HostRuntime, path: &str) {
    let _ = fs::create_dir(rt, "out");
    let _ = fs::remove_file(rt, path);
}

// Calls of a disk over the file at a path, which is dropped after them.
fn check_over(
    checks: &mut Checks<'_, HostRuntime>,
    rt: &HostRuntime,
    path: &str,
    buffer: &mut [u8],
    calls: Calls,
) -> Result<(), Fail> {
    let mut disk = over(rt, path)?;
    check_calls(checks, &mut disk, buffer, calls);
    drop(disk);
    Ok(())
}

// Calls of a disk over a path that names nothing before and after them.
fn check_alone(rt: &HostRuntime, path: &str, buffer: &mut [u8], calls: Calls) -> Result<(), Fail> {
    let mut checks = Checks::new(rt);
    clear(rt, path);
    check_over(&mut checks, rt, path, buffer, calls)?;
    clear(rt, path);
    Ok(checks.end()?)
}

// A call of a disk, or what its path names.
#[derive(Clone, Copy)]
enum Step {
    Disk(Call),
    // Whether nothing has the name.
    IsMissing(bool),
    // How long the file is.
    Size(u64),
    // Whether the name is a link.
    IsLink(bool),
}

// What a path names is as a row says.
fn check_named(
    checks: &mut Checks<'_, HostRuntime>,
    rt: &HostRuntime,
    path: &str,
    name: &str,
    step: Step,
) -> Result<(), Fail> {
    match step {
        Step::IsMissing(want) => checks.same_at(name, !fs::exists(rt, path)?, want),
        Step::Size(want) => checks.same_at(name, fs::metadata(rt, path)?.len(), want),
        Step::IsLink(want) => {
            checks.same_at(name, fs::symlink_metadata(rt, path)?.is_symlink(), want);
        }
        Step::Disk(_) => {}
    }
    Ok(())
}

// One step of a disk over a path.
fn check_step(
    checks: &mut Checks<'_, HostRuntime>,
    rt: &HostRuntime,
    path: &str,
    disk: &mut FileDisk<&HostRuntime>,
    (name, step): (&str, Step),
) -> Result<(), Fail> {
    if let Step::Disk(call) = step {
        check_call(checks, disk, &mut [], name, call);
        return Ok(());
    }
    check_named(checks, rt, path, name, step)
}

const FIRST_CALLS: &[(&str, Step)] = &[
    ("a new disk", Step::Disk(Call::Stands(0, 0))),
    ("a stand opens nothing", Step::IsMissing(true)),
    ("the first measuring", Step::Disk(Call::Len(Ok(0)))),
    ("an empty file is made", Step::Size(0)),
    (
        "a measuring takes no moment",
        Step::Disk(Call::Stands(0, 0)),
    ),
];

// The steps of a disk over a path.
fn check_steps_of(
    checks: &mut Checks<'_, HostRuntime>,
    rt: &HostRuntime,
    path: &str,
    disk: &mut FileDisk<&HostRuntime>,
    steps: &[(&str, Step)],
) -> Result<(), Fail> {
    for step in steps {
        check_step(checks, rt, path, disk, *step)?;
    }
    Ok(())
}

// The steps of a disk over a path, which is dropped after them.
fn check_steps(
    checks: &mut Checks<'_, HostRuntime>,
    rt: &HostRuntime,
    path: &str,
    steps: &[(&str, Step)],
) -> Result<(), Fail> {
    let mut disk = over(rt, path)?;
    let checked = check_steps_of(checks, rt, path, &mut disk, steps);
    drop(disk);
    checked
}

#[test]
fn the_first_call_makes_an_empty_file(rt: HostRuntime) -> Result<(), Fail> {
    let mut checks = Checks::new(&rt);
    clear(&rt, "out/made_by_len");
    check_steps(&mut checks, &rt, "out/made_by_len", FIRST_CALLS)?;
    clear(&rt, "out/made_by_len");
    Ok(checks.end()?)
}

const WRITTEN_AND_SYNCED: Calls = &[
    ("a write of four bytes", Call::Write(0, b"abcd", Ok(()))),
    ("a write without a byte", Call::Write(9, b"", Ok(()))),
    ("a sync", Call::Sync(Ok(()))),
    ("two moments each", Call::Stands(6, 0)),
];

const READ_AGAIN: Calls = &[
    ("a read to the end", Call::Read(1, Ok(3))),
    ("what it read", Call::Holds(b"bcd\0\0\0\0\0")),
    ("a read at the end", Call::Read(4, Ok(0))),
    ("a measuring", Call::Len(Ok(4))),
];

#[test]
fn the_next_disk_reads_what_was_synced(rt: HostRuntime) -> Result<(), Fail> {
    let mut checks = Checks::new(&rt);
    clear(&rt, "out/kept");
    check_over(&mut checks, &rt, "out/kept", &mut [], WRITTEN_AND_SYNCED)?;
    check_over(&mut checks, &rt, "out/kept", &mut [0; 8], READ_AGAIN)?;
    clear(&rt, "out/kept");
    Ok(checks.end()?)
}

const PAST_THE_END: Calls = &[
    ("a write past the end", Call::Write(2, b"Q", Ok(()))),
    ("a read of all", Call::Read(0, Ok(3))),
    ("zeros before it", Call::Holds(b"\0\0Q\x01")),
];

#[test]
fn a_write_past_the_end_leaves_zeros(rt: HostRuntime) -> Result<(), Fail> {
    check_alone(&rt, "out/gap", &mut [1; 4], PAST_THE_END)
}

const BEYOND: u64 = 1 << 63;

const BEYOND_THE_SYSTEM: Calls = &[
    ("a read", Call::Read(BEYOND, Err(Failed))),
    ("a write", Call::Write(BEYOND, b"Q", Err(Failed))),
    (
        "a write without a byte",
        Call::Write(BEYOND, b"", Err(Failed)),
    ),
    ("three faults", Call::Stands(4, 3)),
];

#[test]
fn an_offset_beyond_the_system_fails(rt: HostRuntime) -> Result<(), Fail> {
    check_alone(&rt, "out/beyond", &mut [0; 4], BEYOND_THE_SYSTEM)
}

const FIRST_DISK: Calls = &[("the first disk measures", Call::Len(Ok(0)))];

const LOCKED: Calls = &[
    ("the second disk measures", Call::Len(Err(Failed))),
    ("it reads", Call::Read(0, Err(Failed))),
    ("it writes", Call::Write(0, b"b", Err(Failed))),
    ("it syncs", Call::Sync(Err(Failed))),
    ("four faults", Call::Stands(4, 4)),
];

const UNLOCKED: Calls = &[
    ("it measures after the first is dropped", Call::Len(Ok(0))),
    ("no further fault", Call::Faults(4)),
];

// Calls of a second disk over a path while the first has its lock. The first is dropped after them.
fn check_locked(
    checks: &mut Checks<'_, HostRuntime>,
    rt: &HostRuntime,
    path: &str,
    second: &mut FileDisk<&HostRuntime>,
) -> Result<(), Fail> {
    let mut first = over(rt, path)?;
    check_calls(checks, &mut first, &mut [], FIRST_DISK);
    check_calls(checks, second, &mut [0; 4], LOCKED);
    drop(first);
    Ok(())
}

// Calls of a second disk over a path before and after the first is dropped.
fn check_second(
    checks: &mut Checks<'_, HostRuntime>,
    rt: &HostRuntime,
    path: &str,
) -> Result<(), Fail> {
    let mut second = over(rt, path)?;
    let locked = check_locked(checks, rt, path, &mut second);
    check_calls(checks, &mut second, &mut [0; 4], UNLOCKED);
    drop(second);
    locked
}

#[test]
fn a_second_disk_fails_until_the_first_is_dropped(rt: HostRuntime) -> Result<(), Fail> {
    let mut checks = Checks::new(&rt);
    clear(&rt, "out/locked");
    check_second(&mut checks, &rt, "out/locked")?;
    clear(&rt, "out/locked");
    Ok(checks.end()?)
}

const NOT_REGULAR: Calls = &[
    ("a sync", Call::Sync(Err(Failed))),
    ("a measuring", Call::Len(Err(Failed))),
    ("two faults", Call::Stands(2, 2)),
];

const NO_DISKS: &[&str] = &["out", "/dev/null", "out/no_folder/file", ""];

#[test]
fn no_file_but_a_regular_one_is_a_disk(rt: HostRuntime) -> Result<(), Fail> {
    let mut checks = Checks::new(&rt);
    let _ = fs::create_dir(&rt, "out");
    for path in NO_DISKS {
        check_over(&mut checks, &rt, path, &mut [], NOT_REGULAR)?;
    }
    Ok(checks.end()?)
}

const THROUGH_A_LINK: Calls = &[("a write", Call::Write(0, b"abc", Ok(())))];

#[test]
fn a_link_is_followed(rt: HostRuntime) -> Result<(), Fail> {
    let mut checks = Checks::new(&rt);
    let link = "out/link";
    let target = "out/linked";
    clear(&rt, link);
    clear(&rt, target);
    symlink(&rt, "linked", link)?;
    check_over(&mut checks, &rt, link, &mut [], THROUGH_A_LINK)?;
    check_named(
        &mut checks,
        &rt,
        target,
        "the target is written",
        Step::Size(3),
    )?;
    check_named(&mut checks, &rt, link, "the link stays", Step::IsLink(true))?;
    clear(&rt, link);
    clear(&rt, target);
    Ok(checks.end()?)
}
