//! Runs, and what came of them compared with what is expected.

ghost use Rattle.std.specs.Prelude.{◌≡◌, ◌↔◌, IsTrue, map};
ghost use Rattle.case_trials.specs.Calls.{taken};
ghost use Rattle.case_trials.specs.Visits.{seen};

use crate::answer::{Answer, Ended};
use crate::difference::{write_disk, write_links, write_listeners, write_output};
use crate::disk::disk_of;
use crate::fault::TrialFault;
use crate::links::{lines_of, wanted_calls};
use crate::stage::Stage;
use crate::visited::{Visited, posts_of, wanted_visited};
use case_files::{Call, Case, Changes, Run, Text, folder_of, given_bytes, ports_of};
use farm_disk::MemDisk;
use farm_ports::Folder;
use std::alloc::Global;
use std::fmt;
use std::sync::Wait;
use std::thread::Threads;

/// A run: the expected answer and the one that came.
#[derive(Debug, Drop)]
pub struct Trial {
    /// What the case wants.
    pub wanted: Answer,
    /// What the run answered.
    pub came: Answer,
}

impl Trial {
    /// Runs a case.
    pub fn of_case<R: Threads + Wait + Sync, F: Folder>(
        stage: &Stage<'_, R>,
        data: &mut F,
        case: &Case<'_>,
    ) -> Result<Self, TrialFault> {
        let wanted = wanted_of(stage.alloc, data, &case.run, case.disk.after)?;
        let came = came_of(stage, data, case)?;
        Ok(Trial { wanted, came })
    }

    /// The disk that a run on a disk before a case leaves. It is refused by its number if it differs.
    pub fn disk_after<R: Threads + Wait + Sync, F: Folder>(
        stage: &Stage<'_, R>,
        data: &mut F,
        number: u64,
        run: &Run<'_>,
        disk: MemDisk,
    ) -> Result<MemDisk, TrialFault> {
        let ended = ended_over(stage, data, run, &Changes::none(), None, disk)?;
        let wanted = wanted_of(stage.alloc, data, run, None)?;
        Trial::agreed(number, wanted, ended)
    }

    // The disk of a run that agrees.
    fn agreed(number: u64, wanted: Answer, ended: Ended) -> Result<MemDisk, TrialFault> {
        let trial = Trial {
            wanted,
            came: ended.answer,
        };
        if trial.agrees() {
            Ok(ended.disk)
        } else {
            Err(TrialFault::Before(number, trial))
        }
    }

    /// Whether what came is what is expected: the same status, the same output, the same disk and the same of each listener
    /// and each link.
    pub fn agrees(&self) -> bool
        ensures agrees { IsTrue result ↔ ((self.now.came.status ≡ self.now.wanted.status) × (self.now.came.output.items ≡ self.now.wanted.output.items)
            × (self.now.came.disk.items ≡ self.now.wanted.disk.items)
            × (map seen self.now.came.listeners.items ≡ map seen self.now.wanted.listeners.items)
            × (map taken self.now.came.links.items ≡ map taken self.now.wanted.links.items)) }
    {
        self.came.status == self.wanted.status
            && self.came.output == self.wanted.output
            && self.came.disk == self.wanted.disk
            && same_visits(&self.came.listeners, &self.wanted.listeners)
            && same_calls(&self.came.links, &self.wanted.links)
    }
}

impl fmt::Display for Trial {
    fn fmt<W: fmt::Write>(&self, f: &mut fmt::Formatter<W>) -> fmt::Result {
        let (wanted, came) = (&self.wanted, &self.came);
        write!(f, "wanted status {}, came {}", wanted.status, came.status)?;
        write_output(&wanted.output, &came.output, f)?;
        write_disk(&wanted.disk, &came.disk, f)?;
        write_listeners(&wanted.listeners, &came.listeners, f)?;
        write_links(&wanted.links, &came.links, f)
    }
}

// Whether listeners have the same.
fn same_visits(came: &[Visited], wanted: &[Visited]) -> bool
    ensures same { IsTrue result ↔ (map seen came.now ≡ map seen wanted.now) }
{
    came == wanted
}

// Whether links took the same calls.
fn same_calls(came: &[Vec<Call>], wanted: &[Vec<Call>]) -> bool
    ensures same { IsTrue result ↔ (map taken came.now ≡ map taken wanted.now) }
{
    came == wanted
}

// What is expected of a run, with this text on its disk.
fn wanted_of<F: Folder>(
    alloc: Global,
    data: &mut F,
    run: &Run<'_>,
    after: Option<Text<'_>>,
) -> Result<Answer, TrialFault> {
    let output = given_bytes(alloc, data, run.output)?;
    Ok(Answer {
        status: run.status,
        output,
        disk: given_bytes(alloc, data, after)?,
        listeners: wanted_visited(alloc, data, run.listeners)?,
        links: wanted_calls(alloc, run.links)?,
    })
}

// What comes of a case.
fn came_of<R: Threads + Wait + Sync, F: Folder>(
    stage: &Stage<'_, R>,
    data: &mut F,
    case: &Case<'_>,
) -> Result<Answer, TrialFault> {
    let disk = disk_of(stage, data, case)?;
    let (run, changes) = (&case.run, &case.changes);
    ended_over(stage, data, run, changes, case.piece_bytes, disk)?.answer(
        stage.alloc,
        case.disk.after.is_some(),
    )
}

// What a run over a disk ends with.
fn ended_over<R: Threads + Wait + Sync, F: Folder>(
    stage: &Stage<'_, R>,
    data: &mut F,
    run: &Run<'_>,
    changes: &Changes<'_>,
    piece_bytes: Option<u64>,
    disk: MemDisk,
) -> Result<Ended, TrialFault> {
    let folder = folder_of(stage.alloc, data, stage.sites, run, changes)?;
    let ports = ports_of(stage.alloc, data, run, piece_bytes, folder)?;
    let posts = posts_of(stage.alloc, data, run.listeners)?;
    let lines = lines_of(stage.alloc, run.links)?;
    Ended::of(stage, run, ports, posts, lines, disk)
}
