//! What holds of the conversation of a post on a longer history.

ghost use Rattle.desk_posts.specs.Laws.{ConversationsStand};

use desk_access::DeskAccess;
use farm_ports::Clock;

/// Does nothing: the conversation of a post, which is stated on the history that its caller has seen, stands on every history that may follow.
pub fn post_laws<A: DeskAccess, C: Clock>(clock: &C)
    ensures stands { ConversationsStand A.may_follow (C.may_give clock.now) A.limit }
{
    let _ = clock;
    A::access_laws();
}
