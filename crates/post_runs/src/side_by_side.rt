//! Desk posts and gauge lines side by side.

ghost use Rattle.std.specs.Fork.{AcceptsEach};
ghost use Rattle.shared_posts.specs.Sides.{EachChanged};

use desk_posts::PostRoom;
use line_posts::GaugeLine;
use shared_posts::{Post, run_both};
use std::thread::Threads;

/// Runs desk posts and gauge lines side by side, each by its index from 0 among its kind.
pub(crate) fn run_sides<
    R: Threads + Sync,
    X: Send,
    Y: Send,
    C: Send,
    F: Fn(usize, &mut Post<X, PostRoom, C>) + Sync,
    G: Fn(usize, &mut Post<Y, GaugeLine, C>) + Sync,
>(
    rt: &R,
    run_desk: &F,
    run_line: &G,
    desks: &mut [Post<X, PostRoom, C>],
    lines: &mut [Post<Y, GaugeLine, C>],
)
    requires desks { AcceptsEach F.Fn run_desk.now desks.old }
    requires lines { AcceptsEach G.Fn run_line.now lines.old }
    ensures desks { EachChanged F.Fn run_desk.now desks.old desks.new }
    ensures lines { EachChanged G.Fn run_line.now lines.old lines.new }
{
    run_both(rt, run_desk, run_line, desks, lines);
}
