//! The callers of posts.

ghost use Rattle.std.specs.Prelude.{◌≡◌, ◌+◌, ◌≤◌, length, Some};
ghost use Rattle.farm_turn.specs.Views.{left_of, numbers_of};
ghost use Rattle.shared_posts.specs.Callers.{GetCallers, IsLeft, IsNewCaller, numbers_in};

use crate::post::{Caller, DeskCaller, DeskPass, Post};
use boxed_disk::BoxedDisk;
use farm_desk::Desk;
use farm_disk::Disk;
use farm_turn::Turn;

// A new caller, with a pass that is split off the remaining one.
fn next_caller<D: Disk, const LIMIT: usize>(
    turn: &Turn<Desk<BoxedDisk<D>, LIMIT>>,
    left: &mut DeskPass<D, LIMIT>,
) -> DeskCaller<D, LIMIT>
    requires left { IsLeft turn.now left.old left.old.known.next }
    requires room { 2 ≤ left_of left.old.known }
    ensures new { IsNewCaller turn.now left.old.known.next (Some result) }
    ensures left { IsLeft turn.now left.new (left.old.known.next + 1) }
    ensures fewer { left_of left.new.known + 1 ≡ left_of left.old.known }
    ensures numbers_in_all { numbers_of result.pass.known + numbers_of left.new.known ≡ numbers_of left.old.known }
{
    let Ok(mut pass) = turn.split(left) else {
        unreachable!()
    };
    let number = turn.enrol(&mut pass);
    Caller { pass, number }
}

/// Gives each post a caller of its own, numbered in the order of the posts from the least remaining number.
pub fn give_callers<X: Drop, W: Drop, D: Disk, const LIMIT: usize>(
    turn: &Turn<Desk<BoxedDisk<D>, LIMIT>>,
    left: &mut DeskPass<D, LIMIT>,
    posts: &mut [Post<X, W, DeskCaller<D, LIMIT>>],
)
    requires left { IsLeft turn.now left.old left.old.known.next }
    requires room { length posts.old + 1 ≤ left_of left.old.known }
    ensures given { GetCallers turn.now left.old.known.next posts.old posts.new }
    ensures left { IsLeft turn.now left.new (left.old.known.next + length posts.old) }
    ensures fewer { left_of left.new.known + length posts.old ≡ left_of left.old.known }
    ensures numbers_in_all { numbers_in posts.new + numbers_of left.new.known ≡ numbers_of left.old.known }
{
    for post in posts.iter_mut() {
        post.caller = Some(next_caller(turn, left));
    }
}
