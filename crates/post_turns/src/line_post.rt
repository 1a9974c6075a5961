//! A gauge line among others.

ghost use Rattle.std.specs.Prelude.{◌≡◌, ℕ, ◌+◌, ◌<◌, ◌≤◌};
ghost use Rattle.farm_history.specs.History.{last_place};
ghost use Rattle.line_posts.specs.Limits.{most_rounds};
ghost use Rattle.shared_posts.specs.Callers.{IsReady};
ghost use Rattle.post_turns.specs.Running.{HasLine, RunsLine};
ghost use Rattle.shared_posts.specs.Running.{HasRun};

use boxed_disk::BoxedDisk;
use desk_turns::TurnAccess;
use farm_desk::Desk;
use farm_disk::Disk;
use farm_ports::{Clock, Link};
use farm_turn::Turn;
use line_posts::{GaugeLine, run_line};
use shared_posts::{Caller, DeskCaller, Post};
use std::sync::Wait;

/// A gauge line, over a link.
pub type LinePost<M, D, const LIMIT: usize> = Post<M, GaugeLine, DeskCaller<D, LIMIT>>;

/// Polls a line of the site, by its index from 0, for these rounds, as its caller, by turns.
pub fn run_line_post<R: Wait, D: Disk, M: Link, C: Clock, const LIMIT: usize>(
    rt: &R,
    turn: &Turn<Desk<BoxedDisk<D>, LIMIT>>,
    post: &mut LinePost<M, D, LIMIT>,
    clock: &C,
    index: u16,
    rounds: u32,
    opened: u32,
)
    requires ready { (number : ℕ) × IsReady (HasLine turn.now.opening.history.site.lines index) turn.now number post.old }
    requires index { index < 65535 }
    requires rounds { rounds ≤ most_rounds }
    requires opened { opened ≡ last_place turn.now.opening.history }
    ensures ran { HasRun (RunsLine M.calls M.faults (C.may_give clock.now) LIMIT rounds turn.now.opening.history.site.lines index) turn.now post.old post.new }
{
    let Some(Caller { pass, number }) = post.caller.take() else {
        unreachable!()
    };
    let Some(mut line) = post.work.take() else {
        unreachable!()
    };
    let mut access = TurnAccess::new(rt, turn, pass, number, opened as usize);
    run_line(
        &mut post.outside,
        &mut line,
        &mut access,
        clock,
        index + 1,
        opened,
        rounds,
    );
    post.work = Some(line);
    post.caller = Some(Caller {
        pass: access.into_pass(),
        number,
    });
}
