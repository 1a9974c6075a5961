//! The run of a line.

ghost use Rattle.std.specs.Prelude.{◌≡◌, ◌≤◌};
ghost use Rattle.farm_ports.specs.Links.{AddsCalls};
ghost use Rattle.modbus_poll.specs.Polls.{fresh};
ghost use Rattle.line_posts.specs.Limits.{most_rounds};
ghost use Rattle.line_posts.specs.Runs.{IsLineRun};
ghost use Rattle.line_posts.specs.States.{line_state};
ghost use Rattle.line_posts.specs.Steps.{pauses_before};

use crate::line::GaugeLine;
use crate::rounds::run_round;
use crate::submitting::Submitter;
use desk_access::DeskAccess;
use farm_ports::{Clock, Link};

/// Runs a line, by its number from 1, as one caller of a desk that was recovered with a number of entries: whole rounds, with a pause of a
/// second between two.
///
/// In a round each gauge is polled once, in the site's order. A reading that is due is submitted once, and counts as submitted whatever the
/// desk answers. After each round the caller looks at the desk, and the run ends if it has seen a Stop that was entered since the desk was
/// opened. A poll that fails is an answer of the poll and ends nothing. The link may wait.
pub fn run_line<M: Link, A: DeskAccess, C: Clock>(
    link: &mut M,
    line: &mut GaugeLine,
    access: &mut A,
    clock: &C,
    number: u16,
    recovered: u32,
    rounds: u32,
)
    requires fresh { line.old ≡ fresh line.old.line }
    requires recovered { recovered ≡ (A.state access.old).opened }
    requires rounds { rounds ≤ most_rounds }
    ensures line_run { IsLineRun A.may_follow (C.may_give clock.now) A.limit number rounds
        (line_state M.calls M.faults A.state link.old line.old access.old) (line_state M.calls M.faults A.state link.new line.new access.new) }
    ensures never_falls { M.faults link.old ≤ M.faults link.new }
    ensures keeps { A.keeps access.old access.new }
{
    A::access_laws();
    let mut submitter = Submitter {
        line: number,
        recovered,
        count: 0,
    };
    for past in 0..rounds {
        pause_before(link, past);
        run_round(
            link,
            &mut line.poller,
            line.gauges,
            access,
            clock,
            &mut submitter,
        );
        if access.stopped() {
            return;
        }
    }
}

// Pauses before a round, but for the first one.
fn pause_before<M: Link>(link: &mut M, past: u32)
    ensures paused { AddsCalls (M.calls link.old) (M.calls link.new) (pauses_before past) }
    ensures quiet { M.faults link.new ≡ M.faults link.old }
{
    farm_ports::link_laws();
    if past > 0 {
        link.pause();
    }
}
