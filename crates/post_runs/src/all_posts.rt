//! All posts of a desk, side by side.

ghost use Rattle.std.specs.Prelude.{◌≡◌, ℕ, ◌+◌, ◌<◌, ◌≤◌, length, IsSome};
ghost use Rattle.farm_history.specs.History.{last_place};
ghost use Rattle.line_posts.specs.Limits.{most_rounds};
ghost use Rattle.shared_posts.specs.Callers.{AreReady, IsReady};
ghost use Rattle.post_turns.specs.Running.{ConversesAs, HasLine, RunsLine};
ghost use Rattle.shared_posts.specs.Running.{EachHasRun, HasRun};

use crate::side_by_side::run_sides;
use boxed_disk::BoxedDisk;
use farm_desk::Desk;
use farm_disk::Disk;
use farm_listeners::Listener;
use farm_ports::{Clock, Link};
use farm_turn::Turn;
use post_turns::{DeskPost, LinePost, run_desk_post, run_line_post};
use std::alloc::Global;
use std::sync::Wait;
use std::thread::Threads;

/// Runs desk posts on ports from this one on and lines of the site, each by its index, until all have ended.
pub fn run_all<
    R: Threads + Wait + Sync,
    D: Disk + Send,
    L: Listener<Conn: Send> + Send,
    M: Link + Send,
    C: Clock + Sync,
    const LIMIT: usize,
>(
    rt: &R,
    alloc: Global,
    turn: &Turn<Desk<BoxedDisk<D>, LIMIT>>,
    clock: &C,
    port: u16,
    rounds: u32,
    opened: u32,
    desks: &mut [DeskPost<L, D, LIMIT>],
    lines: &mut [LinePost<M, D, LIMIT>],
)
    requires desks { AreReady (λ index. IsSome) turn.now 0 0 desks.old }
    requires lines { (first : ℕ) × AreReady (HasLine turn.now.opening.history.site.lines) turn.now first 0 lines.old }
    requires ports { port + length desks.old ≤ 65536 }
    requires few { length lines.old ≤ 65535 }
    requires rounds { rounds ≤ most_rounds }
    requires opened { opened ≡ last_place turn.now.opening.history }
    ensures desks { EachHasRun (ConversesAs L.events L.faults (C.may_give clock.now) LIMIT port) turn.now 0 desks.old desks.new }
    ensures lines { EachHasRun (RunsLine M.calls M.faults (C.may_give clock.now) LIMIT rounds turn.now.opening.history.site.lines) turn.now 0 lines.old lines.new }
{
    let run_desk = |index: usize, post: &mut DeskPost<L, D, LIMIT>|
        requires { (port + index ≤ 65535) × ((number : ℕ) × IsReady IsSome turn.now number post.now) × (opened ≡ last_place turn.now.opening.history) }
        ensures { HasRun (ConversesAs L.events L.faults (C.may_give clock.entry.now) LIMIT port index) turn.entry.now post.entry.now post.exit.now }
    {
        run_desk_post(rt, alloc, turn, post, clock, port + index as u16, opened);
    };
    let run_line = |index: usize, post: &mut LinePost<M, D, LIMIT>|
        requires { (index < 65535) × ((number : ℕ) × IsReady (HasLine turn.now.opening.history.site.lines index) turn.now number post.now)
            × (rounds ≤ most_rounds) × (opened ≡ last_place turn.now.opening.history) }
        ensures { HasRun (RunsLine M.calls M.faults (C.may_give clock.entry.now) LIMIT rounds turn.entry.now.opening.history.site.lines index) turn.entry.now
            post.entry.now post.exit.now }
    {
        run_line_post(rt, turn, post, clock, index as u16, rounds, opened);
    };
    run_sides(rt, &run_desk, &run_line, desks, lines);
}
