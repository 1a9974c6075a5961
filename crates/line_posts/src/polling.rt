//! A poll, and the submission of its reading.

ghost use Rattle.std.specs.Prelude.{◌≡◌, ◌+◌, ◌<◌, ◌≤◌, length, IfSome};
ghost use Rattle.modbus_poll.specs.Polls.{index_after, index_of};
ghost use Rattle.line_posts.specs.Limits.{keys_apart};
ghost use Rattle.line_posts.specs.States.{line_state};
ghost use Rattle.line_posts.specs.Steps.{HasDueReading, PollsOne};

use crate::submitting::Submitter;
use desk_access::DeskAccess;
use farm_ports::{Clock, Link};
use modbus_poll::{Polled, Poller, Raw};

/// Polls the gauge whose turn it is, and submits its reading if that is due. It counts as submitted whatever the desk answers.
pub(crate) fn poll_gauge<M: Link, A: DeskAccess, C: Clock>(
    link: &mut M,
    poller: &mut Poller,
    access: &mut A,
    clock: &C,
    submitter: &mut Submitter,
)
    requires room { submitter.old.count + 1 < keys_apart }
    ensures polled { PollsOne A.may_follow (C.may_give clock.now) A.limit submitter.old submitter.new
        (line_state M.calls M.faults A.state link.old poller.old access.old) (line_state M.calls M.faults A.state link.new poller.new access.new) }
    ensures next { poller.new.next ≡ index_after poller.old.next (length poller.old.line.gauges) }
    ensures line { poller.new.line ≡ poller.old.line }
    ensures never_falls { M.faults link.old ≤ M.faults link.new }
    ensures keeps { A.keeps access.old access.new }
{
    A::access_laws();
    let answer = poller.turn(link);
    if let Some((gauge, raw)) = due_reading(poller, answer) {
        access.ask(clock.now(), &submitter.next(&raw));
        poller.submitted(gauge, raw);
    }
}

// The reading of an answer with the index of its gauge, if it has one that is due.
#[tactic(auto, using(crate::proofs::Dues::is_due_by, crate::proofs::Dues::not_due_by, crate::proofs::Dues::no_reading))]
fn due_reading(poller: &Poller, answer: Polled) -> Option<(usize, Raw)>
    requires gauge { index_of answer < length poller.now.line.gauges }
    ensures due { HasDueReading poller.now answer result }
    ensures inside { IfSome result (λ reading. reading.0 < length poller.now.line.gauges) }
{
    let Polled::Value(gauge, raw) = answer else {
        return None;
    };
    if poller.due(gauge, &raw) {
        Some((gauge, raw))
    } else {
        None
    }
}
