//! What holds of the run of a line on a longer history.

ghost use Rattle.line_posts.specs.Laws.{RunsContinue};

use desk_access::DeskAccess;
use farm_ports::Clock;

/// Does nothing: the run of a line, which is stated on the history that its caller has seen, is the same on every history that may follow.
pub fn line_laws<A: DeskAccess, C: Clock>(clock: &C)
    ensures continues { RunsContinue A.may_follow (C.may_give clock.now) A.limit }
{
    let _ = clock;
    A::access_laws();
}
