//! `farm`, the custody desk of a tank terminal.
//!
//! `main` hands the real ports and the real disk to `farm_run::run`, which does all that the program does. docs/machine.md states what
//! each command reads and prints.
#![tactic(auto)]

ghost use Rattle.std.specs.Prelude.{◌≡◌, ◌⊎◌, IfSome, None, Some, ℤ, map, string_bytes};
ghost use Rattle.command_line.specs.Commands.{command_of, journal_file, site_folder};
ghost use Rattle.command_line.specs.declared.commands.Subcommand.TheVariants.{Batch, Calc, Drill, Init, Report, Serve, Table};
ghost use Rattle.command_line.specs.declared.drill.DrillOptions.{DrillOptions};
ghost use Rattle.command_line.specs.declared.serve.ServeOptions.{ServeOptions};

use command_line::{MOST_WORKERS, places};
use farm_disk::FileDisk;
use farm_listeners::TcpPost;
use farm_ports::{DirFolder, StdSink, StdSource, SystemClock, TcpLink};
use farm_run::{MOST_LINES, report_no_memory, run};
use farm_serve::Post;
use std::process::ExitCode;
use std::rt::Env;
use std::sync::Wait;
use std::thread::Threads;
use std::{array, env, io};

// How many desk posts and gauge lines a run is handed: as many as its arguments and a site may have.
const POSTS: usize = 8;

const LINES: usize = 16;

const _: () = prove!(POSTS as u64 == MOST_WORKERS);

const _: () = prove!(LINES == MOST_LINES);

// The arguments: the words after the program's name.
fn arguments(rt: &(impl Env + AllocGlobal)) -> io::Result<Vec<String>> {
    Ok(env::args(rt)?.skip(1).collect(rt.alloc())?)
}

// Runs the arguments over the real ports and the real disk, and answers a status of their command. A folder or a file that they don't
// name is opened by no command, and a port or a link by `serve` alone, which may wait.
fn run_arguments<W: Threads + Wait + Sync>(rt: &HostRuntime, waiting: &W, words: &[String]) -> u8
    ensures calc { command_of (map string_bytes words.now) ≡ Some Calc → (result ≡ 0) ⊎ (result ≡ 4) ⊎ (result ≡ 6) ⊎ (result ≡ 7) }
    ensures table { command_of (map string_bytes words.now) ≡ Some Table → (result ≡ 0) ⊎ (result ≡ 2) ⊎ (result ≡ 6) ⊎ (result ≡ 7) }
    ensures init { command_of (map string_bytes words.now) ≡ Some Init →
        (result ≡ 0) ⊎ (result ≡ 2) ⊎ (result ≡ 3) ⊎ (result ≡ 5) ⊎ (result ≡ 6) ⊎ (result ≡ 7) }
    ensures batch { command_of (map string_bytes words.now) ≡ Some Batch →
        (result ≡ 0) ⊎ (result ≡ 3) ⊎ (result ≡ 4) ⊎ (result ≡ 5) ⊎ (result ≡ 6) ⊎ (result ≡ 7) }
    ensures serve { (options : ServeOptions) → command_of (map string_bytes words.now) ≡ Some (Serve options) →
        (result ≡ 0) ⊎ (result ≡ 3) ⊎ (result ≡ 5) ⊎ (result ≡ 6) ⊎ (result ≡ 7) }
    ensures report { (day : ℤ) → command_of (map string_bytes words.now) ≡ Some (Report day) →
        (result ≡ 0) ⊎ (result ≡ 3) ⊎ (result ≡ 5) ⊎ (result ≡ 6) ⊎ (result ≡ 7) }
    ensures drill { (options : DrillOptions) → command_of (map string_bytes words.now) ≡ Some (Drill options) →
        (result ≡ 0) ⊎ (result ≡ 6) ⊎ (result ≡ 7) }
    ensures usage { command_of (map string_bytes words.now) ≡ None → (result ≡ 1) ⊎ (result ≡ 6) ⊎ (result ≡ 7) }
{
    let mut input = StdSource::new(rt.stdin());
    let mut output = StdSink::new(rt.stdout());
    let Some((mut folder, disk)) = named_by(rt, words) else {
        return report_no_memory(&mut output);
    };
    let clock = SystemClock::new(rt);
    let mut desks = desk_posts(rt);
    let mut links = gauge_lines(rt);
    run(
        waiting,
        rt.alloc(),
        words,
        &mut input,
        &mut output,
        &mut folder,
        disk,
        &mut desks,
        &mut links,
        &clock,
    )
    .status
}

// The desk posts that a run may have, each over a port of the system.
fn desk_posts<W, C>(rt: &HostRuntime) -> [Post<TcpPost<&HostRuntime>, W, C>; POSTS] {
    array::from_fn(|_| Post::new(TcpPost::new(rt)))
}

// The gauge lines that a site may have, each over the system's network.
fn gauge_lines<W, C>(rt: &HostRuntime) -> [Post<TcpLink<&HostRuntime>, W, C>; LINES] {
    array::from_fn(|_| Post::new(TcpLink::new(rt)))
}

// The folder and the disk that the arguments name, each of an empty path if they name none. `None` is out of memory alone.
fn named_by<'a>(
    rt: &'a HostRuntime,
    words: &[String],
) -> Option<(DirFolder<&'a HostRuntime>, FileDisk<&'a HostRuntime>)>
    ensures folder { IfSome result (λ named. named.0.over ≡ site_folder (map string_bytes words.now)) }
    ensures disk { IfSome result (λ named. named.1.path ≡ journal_file (map string_bytes words.now)) }
{
    let places = places(rt.alloc(), words)?;
    let folder = DirFolder::new(rt, places.site);
    let disk = FileDisk::new(rt, places.journal);
    Some((folder, disk))
}

fn main(rt: HostRuntime) -> ExitCode {
    let status = match arguments(&rt) {
        Ok(words) => run_arguments(&rt, &rt, &words),
        Err(error) if error.kind() == io::ErrorKind::OutOfMemory => {
            report_no_memory(&mut StdSink::new(rt.stdout()))
        }
        // Arguments that aren't text are no command, as no arguments are.
        Err(_) => run_arguments(&rt, &rt, &[]),
    };
    ExitCode::from(status)
}
