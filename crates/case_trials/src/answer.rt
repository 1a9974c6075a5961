//! What a run ends with.

ghost use Rattle.std.specs.Prelude.{IsSome};

use crate::disk::read_disk;
use crate::fault::TrialFault;
use crate::links::taken_calls;
use crate::stage::Stage;
use crate::visited::{Visited, all_visited};
use case_files::{Call, Ports, Run, texts_of};
use command_line::asks_to_serve;
use farm_disk::MemDisk;
use farm_listeners::Visits;
use farm_ports::Wire;
use farm_run::{Done, RunLine, RunPost, run, run_alone};
use std::alloc::Global;
use std::sync::Wait;
use std::thread::Threads;

/// What a run ends with: its status, what it printed, the bytes of its disk if the case gives them, what its listeners have, and what its
/// links took.
#[derive(Debug, Drop)]
pub struct Answer {
    /// The status that the program ends with.
    pub status: u64,
    /// What it printed.
    pub output: Vec<u8>,
    /// What reads of its disk give, if the case looks at it.
    pub disk: Vec<u8>,
    /// What its listeners have, in their order.
    pub listeners: Vec<Visited>,
    /// The calls that each of its links took, in their order; none of a link that the case doesn't look at.
    pub links: Vec<Vec<Call>>,
}

/// What a run ended with, before its disk is looked at, and the disk that it left.
#[derive(Drop)]
pub struct Ended {
    pub answer: Answer,
    pub disk: MemDisk,
}

impl Ended {
    /// What the program answers to the words of a run over ports, posts and a disk.
    pub(crate) fn of<R: Threads + Wait + Sync>(
        stage: &Stage<'_, R>,
        run: &Run<'_>,
        ports: Ports,
        posts: Vec<RunPost<Visits, MemDisk>>,
        lines: Vec<RunLine<Wire, MemDisk>>,
        disk: MemDisk,
    ) -> Result<Self, TrialFault> {
        let mut ports = ports;
        let mut posts = posts;
        let mut lines = lines;
        let words = texts_of(stage.alloc, "words", run.words)?;
        let done = done_of(stage, &words, &mut ports, &mut posts, &mut lines, disk);
        let answer = Answer {
            status: u64::from(done.status),
            output: Vec::from_slice(stage.alloc, ports.output.bytes())?,
            disk: Vec::new(stage.alloc),
            listeners: all_visited(stage.alloc, &posts, run.listeners)?,
            links: taken_calls(stage.alloc, &lines, run.links)?,
        };
        Ok(Ended {
            answer,
            disk: done.disk.unwrap(),
        })
    }

    /// The answer, with the bytes that reads of the disk give, if they are looked at.
    pub(crate) fn answer(
        self,
        alloc: Global,
        is_disk_looked_at: bool,
    ) -> Result<Answer, TrialFault> {
        if !is_disk_looked_at {
            return Ok(self.answer);
        }
        let disk = read_disk(alloc, self.disk)?;
        Ok(Answer {
            disk,
            ..self.answer
        })
    }
}

// How the program ends on words: posts and lines are handed to it only if they ask to serve.
fn done_of<R: Threads + Wait + Sync>(
    stage: &Stage<'_, R>,
    words: &[String],
    ports: &mut Ports,
    posts: &mut [RunPost<Visits, MemDisk>],
    lines: &mut [RunLine<Wire, MemDisk>],
    disk: MemDisk,
) -> Done<MemDisk>
    ensures handed_back { IsSome result.disk }
{
    let Ports {
        clock,
        output,
        input,
        folder,
    } = ports;
    if asks_to_serve(words) {
        run(
            stage.rt,
            stage.alloc,
            words,
            input,
            output,
            folder,
            disk,
            posts,
            lines,
            clock,
        )
    } else {
        run_alone(stage.alloc, words, input, output, folder, disk, clock)
    }
}
