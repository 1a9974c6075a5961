//! Calls of the accesses of two callers.

ghost use Rattle.std.specs.Prelude.{◌≡◌};
ghost use Rattle.farm_history.specs.History.{last_place};
ghost use Rattle.desk_turns.specs.Closing.{IsUnused};
ghost use Rattle.desk_turns.specs.Turns.{IsNewPass};
ghost use Rattle.test_turns.specs.Passes.{AreAll};

use crate::desks::RowDesk;
use crate::passes::{FIRST, LAST, Passes, RowTurn, closed, shared_by_two};
use crate::requests::{Expected, Request, answer_of, ask_of};
use desk_access::DeskAccess;
use desk_turns::TurnAccess;
use farm_desk::Answer;
use std::alloc::Global;
use std::sync::Wait;
use std::test::Fail;
use test_checks::Checks;

/// Who makes a call.
#[derive(Clone, Copy)]
pub enum Caller {
    /// The first caller.
    First,
    /// The last caller.
    Last,
}

/// A call of an access, and what it answers.
#[derive(Clone, Copy)]
pub enum Call {
    /// A request, at a number of the clock.
    Ask(i64, Request, Expected),
    /// A look at what the other entered.
    Look,
    /// Whether it has seen a Stop that was entered since the desk was opened.
    Stopped(bool),
}

/// Calls in their order, each with its name.
pub type Calls = &'static [(&'static str, Caller, Call)];

// What an access answers to a request.
fn answer<A: DeskAccess>(access: &mut A, clock: i64, request: Request) -> Answer
    ensures keeps { A.keeps access.old access.new }
{
    access.ask(clock, &ask_of(request))
}

// A call of an access answers as its row says.
fn check_call<A: DeskAccess, R: Print>(
    checks: &mut Checks<'_, R>,
    access: &mut A,
    name: &str,
    call: Call,
)
    ensures keeps { A.keeps access.old access.new }
{
    A::access_laws();
    match call {
        Call::Ask(clock, request, want) => {
            checks.same_at(name, answer(access, clock, request), answer_of(want));
        }
        Call::Look => access.look(),
        Call::Stopped(want) => checks.same_at(name, access.stopped(), want),
    }
}

// Calls of two accesses answer as their rows say.
fn check_calls<A: DeskAccess, R: Print>(
    checks: &mut Checks<'_, R>,
    first: &mut A,
    last: &mut A,
    calls: Calls,
)
    ensures first { A.keeps first.old first.new }
    ensures last { A.keeps last.old last.new }
{
    A::access_laws();
    for (name, caller, call) in calls {
        match caller {
            Caller::First => check_call(checks, first, name, *call),
            Caller::Last => check_call(checks, last, name, *call),
        }
    }
}

// The passes after calls of both callers of a desk that was opened with this many entries.
fn passes_after<R: Print + Wait>(
    checks: &mut Checks<'_, R>,
    rt: &R,
    turn: &RowTurn,
    passes: Passes,
    opened: usize,
    calls: Calls,
) -> Passes
    requires opened { opened ≡ last_place turn.now.opening.history }
    requires first { IsNewPass turn.now passes.first FIRST }
    requires last { IsNewPass turn.now passes.last LAST }
    requires all { AreAll turn.now.turn passes.first passes.last }
    ensures all { AreAll turn.now.turn result.first result.last }
{
    let Passes { first, last } = passes;
    let mut first = TurnAccess::new(rt, turn, first, FIRST, opened);
    let mut last = TurnAccess::new(rt, turn, last, LAST, opened);
    check_calls(checks, &mut first, &mut last, calls);
    Passes {
        first: first.into_pass(),
        last: last.into_pass(),
    }
}

/// A desk after calls of two callers.
pub(crate) fn desk_after<R: Print + Wait>(
    checks: &mut Checks<'_, R>,
    rt: &R,
    alloc: Global,
    desk: RowDesk,
    calls: Calls,
) -> Result<RowDesk, Fail>
    requires unused { IsUnused desk }
{
    let opened = desk.opened().entries as usize;
    let (turn, passes) = shared_by_two(alloc, desk)?;
    let passes = passes_after(checks, rt, &turn, passes, opened, calls);
    Ok(closed(alloc, turn, passes)?)
}
