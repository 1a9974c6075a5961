//! A round of a line.

ghost use Rattle.std.specs.Prelude.{◌≡◌, ◌+◌, ◌<◌, ◌≤◌, length};
ghost use Rattle.line_posts.specs.Limits.{keys_apart};
ghost use Rattle.line_posts.specs.States.{line_state};
ghost use Rattle.line_posts.specs.Steps.{RunsRound};

use crate::polling::poll_gauge;
use crate::submitting::Submitter;
use desk_access::DeskAccess;
use farm_ports::{Clock, Link};
use modbus_poll::Poller;

/// Polls each gauge of a line once, and then looks at the desk.
pub(crate) fn run_round<M: Link, A: DeskAccess, C: Clock>(
    link: &mut M,
    poller: &mut Poller,
    gauges: usize,
    access: &mut A,
    clock: &C,
    submitter: &mut Submitter,
)
    requires gauges { gauges ≡ length poller.old.line.gauges }
    requires begins { poller.old.next ≡ 0 }
    requires room { submitter.old.count + gauges < keys_apart }
    ensures round { RunsRound A.may_follow (C.may_give clock.now) A.limit submitter.old submitter.new
        (line_state M.calls M.faults A.state link.old poller.old access.old) (line_state M.calls M.faults A.state link.new poller.new access.new) }
    ensures few { submitter.new.count ≤ submitter.old.count + gauges }
    ensures ends { poller.new.next ≡ 0 }
    ensures line { poller.new.line ≡ poller.old.line }
    ensures never_falls { M.faults link.old ≤ M.faults link.new }
    ensures keeps { A.keeps access.old access.new }
{
    A::access_laws();
    for _ in 0..gauges {
        poll_gauge(link, poller, access, clock, submitter);
    }
    access.look();
}
