//! The disk of a case: what the runs before it, a crash, patches and a cut leave.

ghost use Rattle.std.specs.Prelude.{◌≡◌, ℕ, IfOk, Some, drop, take};
ghost use Rattle.farm_base.specs.Known.{WhereKnown};
ghost use Rattle.farm_disk.specs.Images.{IsCrashImage, state_at};
ghost use Rattle.case_trials.specs.Patches.{written_over};

use crate::fault::TrialFault;
use crate::stage::Stage;
use crate::trial::Trial;
use case_files::{
    Case, CaseDisk, CaseFault, Image, Keys, Patch, Run, given_bytes, numbers_of, patches_of,
};
use farm_disk::{Disk, Fill, MemDisk};
use farm_ports::Folder;
use std::alloc::Global;
use std::sync::Wait;
use std::thread::Threads;
use toml::{Table, Value};

// The words of the run that makes the journal of a site.
const MAKING: &str = "words = ['init', '--site=s', '--journal=j']";

/// The disk of a case, before the case runs.
pub(crate) fn disk_of<R: Threads + Wait + Sync, F: Folder>(
    stage: &Stage<'_, R>,
    data: &mut F,
    case: &Case<'_>,
) -> Result<MemDisk, TrialFault> {
    let disk = first_disk(stage, data, &case.disk)?;
    let disk = disk_after(stage, data, case.disk.before, disk)?;
    let left = left(stage.alloc, disk, &case.disk.image)?;
    let patched = patched(stage.alloc, left, case.disk.patch)?;
    disk_with(stage.alloc, front(patched, case.disk.cut)?, &case.run)
}

/// The bytes that reads of a disk give.
pub(crate) fn read_disk(alloc: Global, disk: MemDisk) -> Result<Vec<u8>, TrialFault> {
    let mut disk = disk;
    let mut bytes = vec![in alloc; 0; disk.len()? as usize]?;
    disk.read_at(0, &mut bytes)?;
    Ok(bytes)
}

// A disk with these bytes, on which the calls of a run fail that are to fail.
fn disk_with(alloc: Global, bytes: Vec<u8>, run: &Run<'_>) -> Result<MemDisk, TrialFault> {
    let fails = numbers_of(alloc, "disk", run.fails.disk)?;
    Ok(MemDisk::new(alloc, bytes, fails)?)
}

// The disk before the runs: with the bytes that the case gives, or the journal of its site.
fn first_disk<R: Threads + Wait + Sync, F: Folder>(
    stage: &Stage<'_, R>,
    data: &mut F,
    given: &CaseDisk<'_>,
) -> Result<MemDisk, TrialFault> {
    let bytes = given_bytes(stage.alloc, data, given.bytes)?;
    let disk = MemDisk::new(stage.alloc, bytes, Vec::new(stage.alloc))?;
    match given.journal {
        Some(site) => journal_of(stage, data, site, disk),
        None => Ok(disk),
    }
}

// A disk on which the journal of a site was made.
fn journal_of<R: Threads + Wait + Sync, F: Folder>(
    stage: &Stage<'_, R>,
    data: &mut F,
    site: &str,
    disk: MemDisk,
) -> Result<MemDisk, TrialFault> {
    let table = toml::table_from_str(stage.alloc, MAKING).map_err(CaseFault::from)?;
    let run = making_of(stage.alloc, &table, site)?;
    disk_after_run(stage, data, 0, &run, disk)
}

// The run that makes the journal of a site, by the table of its words.
fn making_of<'a>(alloc: Global, table: &'a Table, site: &'a str) -> Result<Run<'a>, TrialFault> {
    let run = Run::read(&Keys::of(alloc, table, &["words"], &[])?)?;
    Ok(Run {
        site: Some(site),
        ..run
    })
}

// The disk after runs on it, one after another.
fn disk_after<R: Threads + Wait + Sync, F: Folder>(
    stage: &Stage<'_, R>,
    data: &mut F,
    runs: &[Value],
    disk: MemDisk,
) -> Result<MemDisk, TrialFault> {
    let mut disk = disk;
    let mut number: u64 = 0;
    for run in runs {
        number = number.saturating_add(1);
        disk = disk_after_run(stage, data, number, &Run::of(stage.alloc, run)?, disk)?;
    }
    Ok(disk)
}

// The disk after a run on it, which has to agree.
fn disk_after_run<R: Threads + Wait + Sync, F: Folder>(
    stage: &Stage<'_, R>,
    data: &mut F,
    number: u64,
    run: &Run<'_>,
    disk: MemDisk,
) -> Result<MemDisk, TrialFault> {
    let disk = disk_with(stage.alloc, read_disk(stage.alloc, disk)?, run)?;
    Trial::disk_after(stage, data, number, run, disk)
}

// What is left of a disk: what a crash leaves if there was one, and else what reads give.
fn left(alloc: Global, disk: MemDisk, image: &Option<Image<'_>>) -> Result<Vec<u8>, TrialFault> {
    match image {
        Some(image) => crash_image(alloc, &disk, image),
        None => read_disk(alloc, disk),
    }
}

// What a crash leaves of a disk.
fn crash_image(alloc: Global, disk: &MemDisk, image: &Image<'_>) -> Result<Vec<u8>, TrialFault>
    ensures image { IfOk result (λ bytes. WhereKnown (⟦<MemDisk as Disk>⟧.trace disk.now) (λ states. IsCrashImage (state_at states image.now.moment) bytes.items)) }
{
    let last = disk.stand().moment;
    if image.moment > last {
        return Err(TrialFault::NoMoment(last));
    }
    let fill = fill_of(alloc, image.fill)?;
    Ok(disk.image(alloc, image.moment, fill)?)
}

// The fill that a word names.
fn fill_of(alloc: Global, word: &str) -> Result<Fill, TrialFault> {
    match (word, word.parse::<u8>()) {
        ("old", _) => Ok(Fill::Old),
        ("new", _) => Ok(Fill::New),
        (_, Ok(byte)) => Ok(Fill::Byte(byte)),
        _ => Err(TrialFault::NoFill(String::from_str(alloc, word)?)),
    }
}

// The bytes after patches, one after another.
fn patched(alloc: Global, bytes: Vec<u8>, patches: &[Value]) -> Result<Vec<u8>, TrialFault> {
    let mut bytes = bytes;
    for patch in &patches_of(alloc, patches)? {
        bytes = with_patch(alloc, &bytes, patch)?;
    }
    Ok(bytes)
}

// The bytes with a patch written over them, which may reach past their end.
fn with_patch(alloc: Global, bytes: &[u8], patch: &Patch) -> Result<Vec<u8>, TrialFault>
    ensures written { IfOk result (λ after. after.items ≡ written_over patch.now.offset patch.now.bytes.items bytes.now) }
{
    if bytes.len() < patch.offset {
        return Err(TrialFault::PatchBeyond(bytes.len()));
    }
    let (before, covered) = bytes.split_at(patch.offset);
    let mut after = before.to_vec(alloc)?;
    after.extend_from_slice(&patch.bytes)?;
    after.extend_from_slice(without_first(covered, patch.bytes.len()))?;
    Ok(after)
}

// The bytes without the first ones, this many; none if there are no more.
fn without_first(bytes: &[u8], count: usize) -> &[u8]
    ensures rest { result.now ≡ drop count bytes.now }
{
    bytes.split_at(count.min(bytes.len())).1
}

// The first bytes, this many, or all of them.
fn front(bytes: Vec<u8>, cut: Option<u64>) -> Result<Vec<u8>, TrialFault>
    ensures front { IfOk result (λ kept. (size : ℕ) → cut ≡ Some size → kept.items ≡ take size bytes.items) }
{
    let mut bytes = bytes;
    if let Some(size) = cut {
        if bytes.len() < size as usize {
            return Err(TrialFault::TooShort(bytes.len()));
        }
        bytes.truncate(size as usize);
    }
    Ok(bytes)
}
