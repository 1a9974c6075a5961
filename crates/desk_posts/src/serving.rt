//! A connection that is served.

ghost use Rattle.std.specs.Prelude.{◌≡◌};
ghost use Rattle.farm_listeners.specs.Listeners.{IsFreshConnection, connection_of};
ghost use Rattle.desk_posts.specs.Visits.{Serves};

use crate::exchanging::{ends_after, exchange};
use crate::hearing::next_request;
use crate::limits::MOST_REQUESTS;
use crate::room::PostRoom;
use desk_access::DeskAccess;
use farm_ports::{Clock, Sink, Source};
use std::alloc::Global;

/// Serves a connection until it has a cause to end: its input ends with no whole request in hand, it fails, a request is the last one, a
/// Stop is seen, or it had 10,000 requests.
pub(crate) fn serve_connection<P: Source + Sink, A: DeskAccess, C: Clock>(
    alloc: Global,
    room: &mut PostRoom,
    conn: &mut P,
    access: &mut A,
    clock: &C,
)
    requires fresh { IsFreshConnection (connection_of P.stream P.held P.faults conn.old) }
    ensures served { Serves A.may_follow (C.may_give clock.now) A.limit (connection_of P.stream P.held P.faults conn.new) (A.state access.old) (A.state access.new) }
    ensures keeps { A.keeps access.old access.new }
{
    A::access_laws();
    room.clear();
    for _ in 0..MOST_REQUESTS {
        let Ok(Some(heard)) = next_request(alloc, room, conn) else {
            return;
        };
        let last = ends_after(&heard);
        if exchange(alloc, room, conn, access, clock, heard).is_err() || last || access.stopped() {
            return;
        }
    }
}
