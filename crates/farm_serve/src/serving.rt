//! A desk that many posts serve.

ghost use Rattle.std.specs.Prelude.{◌≡◌, ◌+◌, ◌≤◌, [], length, vec_capacity, IfErr, IfOk, IsSome, OnErr};
ghost use Rattle.farm_desk.specs.States.{IsDurable, IsJustMade};
ghost use Rattle.farm_history.specs.History.{last_place};
ghost use Rattle.line_posts.specs.Limits.{most_rounds};
ghost use Rattle.shared_posts.specs.Callers.{HaveWork, IsOpened, outsides_of};
ghost use Rattle.post_turns.specs.Running.{HasLine};
ghost use Rattle.farm_serve.specs.Sharing.{ServesAll, ServesFrom};

use crate::lines::{lines_of, make_lines};
use crate::rooms::make_rooms;
use boxed_disk::BoxedDisk;
use farm_desk::Desk;
use farm_disk::Disk;
use farm_listeners::Listener;
use farm_ports::{Clock, Link};
use farm_turn::Turn;
use post_runs::run_all;
use post_turns::{DeskPost, LinePost};
use shared_posts::{DeskPass, close_posts, give_callers};
use std::alloc::Global;
use std::sync::Wait;
use std::thread::Threads;

/// Serves a desk that was just made or recovered: desk posts answer who connects, and gauge lines of its site are polled, side by side, each
/// as a caller of its own.
///
/// Desk posts have ports from this one on, and gauge lines are those of the site, from the first one on. Callers are numbered from 0, first
/// the desk posts and then the lines, each in their order. A desk post ends as soon as it has seen a Stop of any caller that was entered
/// since, its listener answers that no more connections will come, or a call on its listener fails; a line ends after these rounds, or after
/// the first round with such a Stop. It may wait, and need not return. If the machine gives no thread for a post, it runs after another.
/// Without memory for what posts work with it refuses before the first call on a listener or a link, and hands the desk back as it was; that
/// is the only refusal.
pub fn serve<
    R: Threads + Wait + Sync,
    D: Disk + Send + Drop,
    L: Listener<Conn: Send> + Send + Drop,
    M: Link + Send + Drop,
    C: Clock + Sync,
    const LIMIT: usize,
>(
    rt: &R,
    alloc: Global,
    desk: Desk<BoxedDisk<D>, LIMIT>,
    desks: &mut [DeskPost<L, D, LIMIT>],
    lines: &mut [LinePost<M, D, LIMIT>],
    clock: &C,
    port: u16,
    rounds: u32,
) -> Result<Desk<BoxedDisk<D>, LIMIT>, Desk<BoxedDisk<D>, LIMIT>>
    requires just_made { IsJustMade (λ boxed. D.moment boxed.disk.value) (λ boxed. D.faults boxed.disk.value) desk (last_place desk.history) }
    requires ports { port + length desks.old ≤ 65536 }
    requires lines { length lines.old ≤ length desk.history.site.lines }
    requires rounds { rounds ≤ most_rounds }
    ensures served { IfOk result (λ left. ServesAll L.events L.faults M.calls M.faults (C.may_give clock.now) LIMIT port rounds desk left desks.old desks.new lines.old lines.new) }
    ensures durable { IfOk result (λ left. IsDurable (λ boxed. D.trace boxed.disk.value) (λ boxed. D.moment boxed.disk.value) (λ boxed. D.faults boxed.disk.value) LIMIT left) }
    ensures refused { IfErr result (λ left. left ≡ desk) }
    ensures desks_kept { OnErr result (outsides_of desks.new ≡ outsides_of desks.old) }
    ensures lines_kept { OnErr result (outsides_of lines.new ≡ outsides_of lines.old) }
{
    if make_rooms(alloc, desks).is_err() {
        return Err(desk);
    }
    if make_lines(alloc, lines, lines_of(&desk)).is_err() {
        return Err(desk);
    }
    let Ok(passes) = Vec::with_capacity(alloc, desks.len() + lines.len() + 1) else {
        return Err(desk);
    };
    let opened = desk.book().entries().len() as u32;
    let (turn, left) = match Turn::new(alloc, desk) {
        Ok(opened) => opened,
        Err((desk, _)) => return Err(desk),
    };
    Ok(serve_turn(
        rt, alloc, turn, left, passes, desks, lines, clock, port, rounds, opened,
    ))
}

// Serves the desk of a turn that was just opened: posts that have what they work with get their callers, and run until all have ended.
fn serve_turn<
    R: Threads + Wait + Sync,
    D: Disk + Send + Drop,
    L: Listener<Conn: Send> + Send + Drop,
    M: Link + Send + Drop,
    C: Clock + Sync,
    const LIMIT: usize,
>(
    rt: &R,
    alloc: Global,
    turn: Turn<Desk<BoxedDisk<D>, LIMIT>>,
    mut left: DeskPass<D, LIMIT>,
    passes: Vec<DeskPass<D, LIMIT>>,
    desks: &mut [DeskPost<L, D, LIMIT>],
    lines: &mut [LinePost<M, D, LIMIT>],
    clock: &C,
    port: u16,
    rounds: u32,
    opened: u32,
) -> Desk<BoxedDisk<D>, LIMIT>
    requires opened_turn { IsOpened turn left }
    requires none_taken { passes.items ≡ [] }
    requires room { length desks.old + length lines.old + 1 ≤ vec_capacity passes }
    requires desks { HaveWork (λ index. IsSome) 0 desks.old }
    requires lines { HaveWork (HasLine turn.opening.history.site.lines) 0 lines.old }
    requires ports { port + length desks.old ≤ 65536 }
    requires few { length lines.old ≤ 16 }
    requires rounds { rounds ≤ most_rounds }
    requires opened { opened ≡ last_place turn.opening.history }
    ensures served { ServesFrom L.events L.faults M.calls M.faults (C.may_give clock.now) LIMIT port rounds turn.opening result desks.old desks.new lines.old lines.new }
    ensures durable { IsDurable (λ boxed. D.trace boxed.disk.value) (λ boxed. D.moment boxed.disk.value) (λ boxed. D.faults boxed.disk.value) LIMIT result }
{
    give_callers(&turn, &mut left, desks);
    give_callers(&turn, &mut left, lines);
    run_all(rt, alloc, &turn, clock, port, rounds, opened, desks, lines);
    close_posts(turn, left, passes, desks, lines)
}
