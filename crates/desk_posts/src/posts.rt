//! The run of a post: connections are served one after another until its caller sees a Stop, none will come, or its listener fails.

ghost use Rattle.std.specs.Prelude.{◌≡◌, ◌≤◌};
ghost use Rattle.farm_base.specs.Counts.{count_of};
ghost use Rattle.farm_history.specs.History.{last_place};
ghost use Rattle.desk_posts.specs.Conversations.{IsConversation};

use crate::room::PostRoom;
use crate::serving::serve_connection;
use desk_access::DeskAccess;
use farm_listeners::{Accepted, Listener};
use farm_ports::{Clock, Failed};
use std::alloc::Global;
use std::sync::Wait;

/// How a post ended.
#[derive(Clone, Copy, Debug, PartialEq, Eq)]
pub enum PostEnd {
    /// Its caller has seen a Stop that was entered since the desk was opened.
    Stopped,
    /// No more connections will come.
    Ended,
    /// A call on its listener failed.
    ListenerFailed,
}

/// Runs a post: it listens on a port, and serves one connection after another, as one caller of a desk.
///
/// If nobody comes for a while it looks at the desk, and accepts again. It ends as soon as its caller has seen a Stop that was entered since
/// the desk was opened, its listener answers that no more connections will come, or a call on its listener fails. It may wait, and need
/// not return.
pub fn run_post<R: Wait, L: Listener, A: DeskAccess, C: Clock>(
    rt: &R,
    alloc: Global,
    room: &mut PostRoom,
    listener: &mut L,
    access: &mut A,
    clock: &C,
    port: u16,
) -> PostEnd
    requires just_opened { (A.state access.old).opened ≡ last_place (A.state access.old).seen }
    ensures conversation { IsConversation A.may_follow (C.may_give clock.now) A.limit port (L.events listener.old) (L.events listener.new)
        (count_of L.faults listener.old listener.new) (A.state access.old) (A.state access.new) result }
    ensures keeps { A.keeps access.old access.new }
    ensures never_falls { L.faults listener.old ≤ L.faults listener.new }
{
    A::access_laws();
    if let Err(Failed) = listener.listen(port) {
        return PostEnd::ListenerFailed;
    }
    for _ in rt.forever() {
        match listener.accept() {
            Ok(Accepted::Conn(mut conn)) => {
                serve_connection(alloc, room, &mut conn, access, clock);
                listener.done(conn);
            }
            Ok(Accepted::Idle) => access.look(),
            Ok(Accepted::End) => return PostEnd::Ended,
            Err(Failed) => return PostEnd::ListenerFailed,
        }
        if access.stopped() {
            return PostEnd::Stopped;
        }
    }
    unreachable!()
}
