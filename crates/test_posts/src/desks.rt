//! A desk of the row site with gauge lines, on a disk in memory, and what serves it.

ghost use Rattle.std.specs.Prelude.{IfOk};
ghost use Rattle.farm_desk.specs.States.{IsJustMade};
ghost use Rattle.farm_history.specs.History.{last_place};

use crate::late::{LateVisits, LateWire};
use boxed_disk::BoxedDisk;
use farm_base::NoMemory;
use farm_desk::Desk;
use farm_disk::{Disk, MemDisk};
use farm_history::{Ask, Command, Gauged, Plan};
use farm_ports::{Files, Fixed};
use farm_serve::{DeskPost, LinePost, serve};
use farm_site::Site;
use farm_ticket::Way;
use site_file::ReadSite;
use std::alloc::Global;
use std::sync::Wait;
use std::test::Fail;
use std::thread::Threads;

/// A disk in memory, on the heap.
pub type RowDisk = BoxedDisk<MemDisk>;

/// A desk of twenty entries at most, and Stops beyond them.
pub type RowDesk = Desk<RowDisk, 20>;

/// A desk post.
pub type RowPost<'a> = DeskPost<LateVisits<'a>, MemDisk, 20>;

/// A gauge line.
pub type RowLine<'a> = LinePost<LateWire<'a>, MemDisk, 20>;

/// The moment of the clock.
pub const NOW: i64 = 1_700_000_000;

/// The port of the first desk post.
pub const PORT: u16 = 8_080;

// The most desk posts.
const MOST_POSTS: usize = 8;

// Two lines of one gauge each, whose two input registers are the level in mm and the temperature in 0.1 C.
const LINES: &[u8] = br#"
[[line]]
host = "10.0.0.7"
port = 502

[[line.gauge]]
tank = 101
unit = 17
function = 4
start = 8
quantity = 2
level = { offset = 0 }
temperature = { offset = 1, signed = true, mul = 10 }
deadband_mm = 1

[[line]]
host = "10.0.0.8"
port = 502

[[line.gauge]]
tank = 102
unit = 18
function = 4
start = 8
quantity = 2
level = { offset = 0 }
temperature = { offset = 1, signed = true, mul = 10 }
deadband_mm = 1
"#;

// A sample of tank 101, a gauge's reading of it, and a receipt that is opened on both: the first three entries.
const SAMPLE: Ask = Ask::Do {
    account: 1,
    key: 1,
    cmd: Command::Sample {
        tank: 101,
        density: 8_500,
        sw: 0,
    },
};

const READING: Ask = Ask::Do {
    account: 1,
    key: 2,
    cmd: Command::Gauge {
        tank: 101,
        level: 5_000,
        water: 0,
        temperature: 2_000,
        ambient: 1_500,
    },
};

const OPENING: Ask = Ask::Do {
    account: 1,
    key: 3,
    cmd: Command::Opening(Plan::Outside {
        way: Way::Inward,
        tank: 101,
        party: 7,
        gauged: Gauged {
            reading: 2,
            sample: 1,
        },
    }),
};

// Adds the lines at the end of the first file, `site.toml`.
fn add_lines(files: &mut [(String, Vec<u8>)]) -> Result<(), NoMemory> {
    if let Some((_name, text)) = files.first_mut() {
        text.extend_from_slice(LINES)?;
    }
    Ok(())
}

// A folder of the row site with the lines.
fn site_folder(alloc: Global) -> Result<Files, NoMemory> {
    let mut files = sample_site::row_files(alloc)?;
    if let Err(fault) = add_lines(&mut files) {
        drop(files);
        return Err(fault);
    }
    Files::new(alloc, files, Vec::new(alloc))
}

// The row site with the lines.
fn site(alloc: Global) -> Result<Site, Fail> {
    let mut folder = site_folder(alloc)?;
    Ok(Site::read(alloc, &mut folder)?)
}

// A disk without a byte.
fn empty_disk(alloc: Global) -> Result<RowDisk, Fail> {
    let disk = MemDisk::new(alloc, Vec::new(alloc), Vec::new(alloc))?;
    match BoxedDisk::new(alloc, disk) {
        Ok(boxed) => Ok(boxed),
        Err(_disk) => Err(NoMemory)?,
    }
}

// A desk without an entry.
fn new_desk(alloc: Global) -> Result<RowDesk, Fail>
    ensures new { IfOk result (λ desk. IsJustMade (λ boxed. ⟦<MemDisk as Disk>⟧.moment boxed.disk.value) (λ boxed. ⟦<MemDisk as Disk>⟧.faults boxed.disk.value)
        desk (last_place desk.history)) }
{
    let site = site(alloc)?;
    match Desk::create(alloc, empty_disk(alloc)?, site) {
        Ok(desk) => Ok(desk),
        Err((_disk, fault)) => Err(fault)?,
    }
}

// The disk that a desk with these three entries leaves.
fn disk_of_receipt(alloc: Global) -> Result<RowDisk, Fail> {
    let mut desk = new_desk(alloc)?;
    desk.ask(0, NOW, &SAMPLE);
    desk.ask(0, NOW, &READING);
    desk.ask(0, NOW, &OPENING);
    let (disk, _doubt) = desk.finish();
    Ok(disk)
}

// A desk that was opened with a receipt into tank 101, which is three entries.
fn desk_with_receipt(alloc: Global) -> Result<RowDesk, Fail>
    ensures new { IfOk result (λ desk. IsJustMade (λ boxed. ⟦<MemDisk as Disk>⟧.moment boxed.disk.value) (λ boxed. ⟦<MemDisk as Disk>⟧.faults boxed.disk.value)
        desk (last_place desk.history)) }
{
    match Desk::recover(alloc, disk_of_receipt(alloc)?) {
        Ok(desk) => Ok(desk),
        Err((_disk, fault)) => Err(fault)?,
    }
}

// A desk as a day finds it.
fn desk_of(alloc: Global, receipt: bool) -> Result<RowDesk, Fail>
    ensures new { IfOk result (λ desk. IsJustMade (λ boxed. ⟦<MemDisk as Disk>⟧.moment boxed.disk.value) (λ boxed. ⟦<MemDisk as Disk>⟧.faults boxed.disk.value)
        desk (last_place desk.history)) }
{
    if receipt {
        desk_with_receipt(alloc)
    } else {
        new_desk(alloc)
    }
}

/// A desk that these posts and lines served, either new or opened with a receipt.
pub(crate) fn served<R: Threads + Wait + Sync>(
    rt: &R,
    alloc: Global,
    receipt: bool,
    desks: &mut [RowPost<'_>],
    lines: &mut [RowLine<'_>],
    rounds: u8,
) -> Result<RowDesk, Fail> {
    let clock = Fixed::new(alloc, NOW)?;
    let desk = desk_of(alloc, receipt)?;
    if desks.len() > MOST_POSTS || lines.len() > desk.book().site().lines.get().len() {
        drop(desk);
        return Err("too many posts".into());
    }
    match serve(
        rt,
        alloc,
        desk,
        desks,
        lines,
        &clock,
        PORT,
        u32::from(rounds),
    ) {
        Ok(desk) => Ok(desk),
        Err(_desk) => Err(NoMemory)?,
    }
}
