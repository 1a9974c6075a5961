//! How the turn of a desk is closed.

ghost use Rattle.std.specs.Prelude.{◌≡◌, All, sum_by};
ghost use Rattle.farm_desk.specs.States.{IsDurable};
ghost use Rattle.farm_turn.specs.Views.{number_limit, numbers_of};
ghost use Rattle.desk_turns.specs.Closing.{AccountsFor, IsUnused};

use boxed_disk::BoxedDisk;
use farm_desk::{Desk, Found};
use farm_disk::Disk;
use farm_history::Entry;
use farm_turn::{Pass, Turn};

/// Takes the desk back, with all passes of its turn, which was opened with a desk that was just made. Takes no memory.
pub fn close_turn<D: Disk + Drop, const LIMIT: usize>(
    turn: Turn<Desk<BoxedDisk<D>, LIMIT>>,
    passes: Vec<Pass<Entry, Found<BoxedDisk<D>, LIMIT>>>,
) -> Desk<BoxedDisk<D>, LIMIT>
    requires of_this_turn { All (λ pass. pass.turn ≡ turn.turn) passes.items }
    requires all_passes { sum_by (λ pass. numbers_of pass.known) passes.items ≡ number_limit }
    requires unused { IsUnused turn.opening }
    ensures accounts { AccountsFor turn passes.items result }
    ensures durable { IsDurable (λ boxed. D.trace boxed.disk.value) (λ boxed. D.moment boxed.disk.value) (λ boxed. D.faults boxed.disk.value) LIMIT result }
{
    let Ok(desk) = turn.close(passes) else {
        unreachable!()
    };
    let _ = desk.failed();
    desk
}
