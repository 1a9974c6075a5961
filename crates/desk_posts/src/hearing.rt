//! The next request of a connection.

ghost use Rattle.std.specs.Prelude.{◌≡◌, IfOk, IfSome, OnOk};
ghost use Rattle.farm_base.specs.Counts.{Counts};
ghost use Rattle.desk_posts.specs.Calls.{AsksWellFormed, HearsNext};

use crate::room::PostRoom;
use farm_ports::{Failed, Source};
use http_requests::Heard;
use std::alloc::Global;

/// The next request of a connection, or `None` if its input ended with no whole one in hand.
///
/// Bytes are taken only if those in hand need more. A request has at most as many as there is room for, so there always is some.
pub(crate) fn next_request<S: Source>(
    alloc: Global,
    room: &mut PostRoom,
    source: &mut S,
) -> Result<Option<Heard>, Failed>
    ensures hears { HearsNext (S.stream source.old) (S.stream source.new) room.old room.new result }
    ensures well_formed { IfOk result (λ next. IfSome next AsksWellFormed) }
    ensures held { S.held source.new ≡ S.held source.old }
    ensures counts { Counts (S.faults source.old) (S.faults source.new) result }
{
    loop {
        match room.hear(alloc) {
            Heard::Need => {}
            heard => return Ok(Some(heard)),
        }
        if room.take_more(source)? == 0 {
            return Ok(None);
        }
    }
}
