//! Runs of a desk that are drawn: 40 requests each, up to six calls of the disk that fail, and a Stop, at which the desk ends and is
//! recovered from its disk.

ghost use Rattle.farm_history.specs.Desk.{IsWellFormedAsk};

use crate::disks::new_desk;
use crate::drawing::{Draw, drawn, stop};
use crate::images::{LIMIT, Last, Left, Reopened, check_moment, none_yet};
use crate::model::{Rules, Said};
use crate::small_site::small_site;
use farm_desk::{Answer, Desk, RecoverFault};
use farm_disk::{Disk, MemDisk};
use farm_history::Ask;
use std::alloc::Global;
use std::ops::Range;
use std::test::Fail;
use test_checks::Checks;

// How many seeds are run, and how many requests each asks.
const SEEDS: u64 = 200;

const REQUESTS: u64 = 40;

// How often a recovery is tried: no more calls fail.
const MOST_RECOVERIES: u64 = 7;

// The moment of the clock at the first request; it goes on by a second with each.
const NOW: i64 = 1_700_000_000;

type SmallDesk = Desk<MemDisk, LIMIT>;

/// A moment between two requests, and how many entries a crash leaves at it.
type Looked = (u64, (usize, usize));

/// A run: its seed, the desk's rules, and the moments since the desk was opened.
#[derive(Drop)]
struct Run {
    seed: u64,
    draw: Draw,
    rules: Rules,
    moments: Vec<Looked>,
}

// The answer that the rules say.
fn answer_of(said: Said) -> Answer {
    match said {
        Some(reply) => Answer::Done(reply),
        None => Answer::DiskFault,
    }
}

// A request is answered as the rules say, and leaves the entries and the doubt that they say.
fn check_ask<R: Print>(
    checks: &mut Checks<'_, R>,
    desk: &mut SmallDesk,
    run: &mut Run,
    index: u64,
    ask: &Ask,
) -> Result<(), Fail>
    requires { IsWellFormedAsk ask.now }
{
    let at = NOW.saturating_add(index.min(REQUESTS) as i64);
    let caller = (index % 3) as u32;
    let said = run.rules.answer(caller, at, ask)?;
    let answer = desk.ask(caller, at, ask);
    let is_same = desk.book().entries() == run.rules.entries.as_slice();
    let came = (run.seed, index, answer, is_same, desk.doubt());
    let wanted = (run.seed, index, answer_of(said), true, run.rules.doubt);
    checks.same(came, wanted);
    let (moment, _) = run.rules.stand();
    run.moments.push((moment, run.rules.left()))?;
    Ok(())
}

// Asks the drawn requests of some indexes.
fn ask_drawn<R: Print>(
    checks: &mut Checks<'_, R>,
    desk: &mut SmallDesk,
    run: &mut Run,
    indexes: Range<u64>,
) -> Result<(), Fail> {
    for index in indexes {
        let ask = drawn(&mut run.draw, index);
        check_ask(checks, desk, run, index, &ask)?;
    }
    Ok(())
}

// The images of the moments between the requests are recovered as the rules say.
fn check_each_moment<R: Print>(
    checks: &mut Checks<'_, R>,
    alloc: Global,
    disk: &MemDisk,
    run: &Run,
    lasts: &mut [Last],
) -> Result<(), Fail> {
    for (moment, (least, most)) in &run.moments {
        let left: Left = [
            Reopened::Entries(*least),
            Reopened::Entries(*most),
            Reopened::Entries(*most),
        ];
        let entries = run.rules.entries.as_slice();
        let place = (disk, *moment);
        check_moment(checks, alloc, run.seed, place, &left, entries, lasts)?;
    }
    Ok(())
}

// The same, before any image was recovered.
fn check_moments<R: Print>(
    checks: &mut Checks<'_, R>,
    alloc: Global,
    disk: &MemDisk,
    run: &Run,
) -> Result<(), Fail> {
    let mut lasts = none_yet(alloc)?;
    let checked = check_each_moment(checks, alloc, disk, run, &mut lasts);
    drop(lasts);
    checked
}

// What the end of a desk leaves is as the rules say. From then on its moments are those of the next desk.
fn check_end<R: Print>(
    checks: &mut Checks<'_, R>,
    alloc: Global,
    disk: &MemDisk,
    doubt: bool,
    run: &mut Run,
) -> Result<(), Fail> {
    checks.same_at(run.seed, doubt, !run.rules.settles());
    let stand = disk.stand();
    checks.same_at(run.seed, (stand.moment, stand.faults), run.rules.stand());
    check_moments(checks, alloc, disk, run)?;
    run.moments.clear();
    Ok(())
}

// The desk ends as the rules say. Answers its disk.
fn ended<R: Print>(
    checks: &mut Checks<'_, R>,
    alloc: Global,
    desk: SmallDesk,
    run: &mut Run,
) -> Result<MemDisk, Fail> {
    let (disk, doubt) = desk.finish();
    match check_end(checks, alloc, &disk, doubt, run) {
        Ok(()) => Ok(disk),
        Err(fail) => {
            drop(disk);
            Err(fail)
        }
    }
}

// A desk of a disk that may fail some more calls: each recovery fails if the rules say so.
fn reopened<R: Print>(
    checks: &mut Checks<'_, R>,
    alloc: Global,
    disk: MemDisk,
    run: &mut Run,
) -> Result<SmallDesk, Fail> {
    let mut disk = disk;
    for _ in 0..MOST_RECOVERIES {
        let said = run.rules.recover();
        match Desk::recover(alloc, disk) {
            Ok(desk) => {
                checks.same_at(run.seed, true, said);
                return Ok(desk);
            }
            Err((back, fault)) => {
                checks.same_at(run.seed, (false, fault), (said, RecoverFault::DiskFault));
                disk = back;
            }
        }
    }
    drop(disk);
    Err("a disk that always fails")?
}

// Asks the requests up to the Stop, and the Stop.
fn ask_to_stop<R: Print>(
    checks: &mut Checks<'_, R>,
    desk: &mut SmallDesk,
    run: &mut Run,
    stop_at: u64,
) -> Result<(), Fail> {
    ask_drawn(checks, desk, run, 0..stop_at)?;
    check_ask(checks, desk, run, stop_at, &stop())
}

// Asks them; then the desk ends and is recovered.
fn stopped<R: Print>(
    checks: &mut Checks<'_, R>,
    alloc: Global,
    desk: SmallDesk,
    run: &mut Run,
    stop_at: u64,
) -> Result<SmallDesk, Fail> {
    let mut desk = desk;
    if let Err(fail) = ask_to_stop(checks, &mut desk, run, stop_at) {
        drop(desk);
        return Err(fail);
    }
    let disk = ended(checks, alloc, desk, run)?;
    reopened(checks, alloc, disk, run)
}

// The requests of a run go as the rules say.
fn check_run<R: Print>(
    checks: &mut Checks<'_, R>,
    alloc: Global,
    desk: SmallDesk,
    run: &mut Run,
) -> Result<(), Fail> {
    let stop_at = run.draw.below(REQUESTS);
    let mut desk = stopped(checks, alloc, desk, run, stop_at)?;
    ask_drawn(checks, &mut desk, run, stop_at.saturating_add(1)..REQUESTS)?;
    drop(ended(checks, alloc, desk, run)?);
    Ok(())
}

// The run of a seed, and its desk.
fn run_of(alloc: Global, seed: u64) -> Result<(SmallDesk, Run), Fail> {
    let mut draw = Draw { number: seed };
    let fails = draw.fails(alloc)?;
    let desk = new_desk(alloc, small_site(alloc)?, &fails)?;
    let run = Run {
        seed,
        draw,
        rules: Rules::new(fails, Vec::new(alloc)),
        moments: Vec::new(alloc),
    };
    Ok((desk, run))
}

// The run of a seed goes as the rules say.
fn check_seed<R: Print>(checks: &mut Checks<'_, R>, alloc: Global, seed: u64) -> Result<(), Fail> {
    let (desk, mut run) = run_of(alloc, seed)?;
    let checked = check_run(checks, alloc, desk, &mut run);
    drop(run);
    checked
}

#[test]
fn each_drawn_run_goes_as_the_rules_say(rt: HostRuntime) -> Result<(), Fail> {
    let mut checks = Checks::new(&rt);
    for seed in 1..=SEEDS {
        check_seed(&mut checks, rt.alloc(), seed)?;
    }
    Ok(checks.end()?)
}
