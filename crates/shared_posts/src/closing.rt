//! A turn whose posts have run.

ghost use Rattle.std.specs.Prelude.{◌≡◌, ◌+◌, ◌≤◌, ◌++◌, [], length, vec_capacity};
ghost use Rattle.desk_turns.specs.Closing.{AccountsFor};
ghost use Rattle.farm_desk.specs.States.{IsDurable};
ghost use Rattle.shared_posts.specs.Callers.{HaveEnded, passes_of, without_callers};

use crate::collecting::take_passes;
use crate::post::{DeskCaller, DeskPass, Post};
use boxed_disk::BoxedDisk;
use desk_turns::close_turn;
use farm_desk::Desk;
use farm_disk::Disk;
use farm_turn::Turn;

/// Takes the passes of two kinds of posts into a list that has room for them, and closes their turn. It answers the desk.
pub fn close_posts<X: Drop, V: Drop, Y: Drop, W: Drop, D: Disk + Drop, const LIMIT: usize>(
    turn: Turn<Desk<BoxedDisk<D>, LIMIT>>,
    mut left: DeskPass<D, LIMIT>,
    mut passes: Vec<DeskPass<D, LIMIT>>,
    first: &mut [Post<X, V, DeskCaller<D, LIMIT>>],
    second: &mut [Post<Y, W, DeskCaller<D, LIMIT>>],
) -> Desk<BoxedDisk<D>, LIMIT>
    requires ended { HaveEnded turn left first.old second.old }
    requires none_taken { passes.items ≡ [] }
    requires room { length first.old + length second.old + 1 ≤ vec_capacity passes }
    ensures accounts { AccountsFor turn (passes_of first.old ++ passes_of second.old) result }
    ensures durable { IsDurable (λ boxed. D.trace boxed.disk.value) (λ boxed. D.moment boxed.disk.value) (λ boxed. D.faults boxed.disk.value) LIMIT result }
    ensures first_kept { first.new ≡ without_callers first.old }
    ensures second_kept { second.new ≡ without_callers second.old }
{
    // A turn is closed with all its passes: the remaining one is that of a caller that asks nothing.
    turn.enrol(&mut left);
    passes.push_reserved(left);
    take_passes(first, &mut passes);
    take_passes(second, &mut passes);
    close_turn(turn, passes)
}
