//! The jobs, each at a turn of its own.

ghost use Rattle.test_turns.specs.Passes.{IsCaller, TakesTurns};

use crate::desks::{Entries, RowDesk, disk_at_end, new_desk};
use crate::jobs::Step::{Ask, Look};
use crate::passes::{FIRST, LAST, RowPass, RowTurn, closed, shared_by_two};
use crate::requests::Expected::{Counted, Held, Placed, Refused};
use crate::requests::Request::{Gauge, Stock, Stop, Total};
use crate::requests::{Expected, Request, answer_of, ask_of};
use desk_turns::{AskJob, LookJob};
use farm_desk::Answer;
use farm_history::Rule;
use std::alloc::Global;
use std::sync::Wait;
use std::test::Fail;
use test_checks::Checks;

// The number of the clock.
const NOW: i64 = 1_700_000_000;

// A level outside its range.
const OUT: Expected = Refused(Rule::OutOfRange(1));

// A job of a caller that has looked at a number of entries; then how many stand, and whether a Stop is past those that it had looked at.
#[derive(Clone, Copy)]
enum Step {
    // A request, and its answer.
    Ask(usize, Request, Expected, usize, bool),
    // A look.
    Look(usize, usize, bool),
}

// Jobs in their order, each with its name.
type Steps = &'static [(&'static str, Step)];

// What an `AskJob` tells: its answer, how many entries its caller has looked at, whether a Stop was past those before.
type Told = (Answer, usize, bool);

// What a request tells.
fn told(job: &AskJob<'_>) -> Told {
    (job.answer(), job.looked(), job.stopped())
}

// What a request tells before its turn and after it.
fn asked<R: Wait>(
    rt: &R,
    turn: &RowTurn,
    pass: &mut RowPass,
    looked: usize,
    request: Request,
) -> (Told, Told)
    requires caller { IsCaller turn.now.turn pass.old }
    ensures pass { TakesTurns pass.old pass.new }
{
    let ask = ask_of(request);
    let mut job = AskJob::new(&ask, NOW, looked);
    let before = told(&job);
    turn.turn(rt, pass, &mut job);
    (before, told(&job))
}

// A look after its turn.
fn looked_on<R: Wait>(rt: &R, turn: &RowTurn, pass: &mut RowPass, look: LookJob) -> LookJob
    requires caller { IsCaller turn.now.turn pass.old }
    ensures pass { TakesTurns pass.old pass.new }
{
    let mut job = look;
    turn.turn(rt, pass, &mut job);
    job
}

// A job tells what its row says. A request has no answer before its turn, and what a look has of Stops isn't of its turn.
fn check_step<R: Print + Wait>(
    checks: &mut Checks<'_, R>,
    rt: &R,
    turn: &RowTurn,
    pass: &mut RowPass,
    name: &str,
    step: Step,
)
    requires caller { IsCaller turn.now.turn pass.old }
    ensures pass { TakesTurns pass.old pass.new }
{
    match step {
        Ask(looked, request, want, entries, stopped) => {
            let (before, after) = asked(rt, turn, pass, looked, request);
            checks.same_at(name, before, (Answer::NoMemory, looked, false));
            checks.same_at(name, after, (answer_of(want), entries, stopped));
        }
        Look(looked, entries, stopped) => {
            let look = LookJob {
                looked,
                stopped: !stopped,
            };
            let want = LookJob {
                looked: entries,
                stopped,
            };
            checks.same_at(name, looked_on(rt, turn, pass, look), want);
        }
    }
}

// Jobs of one caller tell what their rows say.
#[tactic(auto, using(crate::proofs::Keeping::caller_on, crate::proofs::Keeping::takes_on))]
fn check_steps<R: Print + Wait>(
    checks: &mut Checks<'_, R>,
    rt: &R,
    turn: &RowTurn,
    pass: &mut RowPass,
    steps: Steps,
)
    requires caller { IsCaller turn.now.turn pass.old }
    ensures pass { TakesTurns pass.old pass.new }
{
    for (name, step) in steps {
        check_step(checks, rt, turn, pass, name, *step);
    }
}

const OF_THE_FIRST: Steps = &[
    ("no entry", Look(0, 0, false)),
    ("fewer entries than it has looked at", Look(2, 0, false)),
    ("a Stop", Ask(0, Stop(1), Placed(1), 1, true)),
    ("past the Stop", Ask(1, Stop(1), Placed(1), 1, false)),
    ("a gauge", Ask(1, Gauge(2, 8_000), Placed(2), 2, false)),
];

const OF_THE_LAST: Steps = &[
    ("both entries", Look(0, 2, true)),
    ("the second alone", Look(1, 2, false)),
    ("a look-up", Ask(0, Total, Counted(2), 2, true)),
    ("past the Stop", Ask(1, Stock, Held(2), 2, false)),
    ("out of range", Ask(2, Gauge(3, 50_001), OUT, 2, false)),
    ("a gauge", Ask(2, Gauge(3, 8_001), Placed(3), 3, false)),
];

const ENTERED: Entries = &[(FIRST, 1, NOW), (FIRST, 2, NOW), (LAST, 3, NOW)];

// A new desk after the jobs of both callers.
fn desk_after<R: Print + Wait>(
    checks: &mut Checks<'_, R>,
    rt: &R,
    alloc: Global,
) -> Result<RowDesk, Fail> {
    let desk = new_desk(alloc, &[])?;
    let (turn, mut passes) = shared_by_two(alloc, desk)?;
    check_steps(checks, rt, &turn, &mut passes.first, OF_THE_FIRST);
    check_steps(checks, rt, &turn, &mut passes.last, OF_THE_LAST);
    Ok(closed(alloc, turn, passes)?)
}

#[test]
fn a_job_tells_what_its_turn_found(rt: HostRuntime) -> Result<(), Fail> {
    let mut checks = Checks::new(&rt);
    let desk = desk_after(&mut checks, &rt, rt.alloc())?;
    drop(disk_at_end(&mut checks, desk, ENTERED, 0));
    Ok(checks.end()?)
}
