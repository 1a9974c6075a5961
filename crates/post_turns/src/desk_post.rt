//! A desk post among others.

ghost use Rattle.std.specs.Prelude.{◌≡◌, ℕ, IsSome};
ghost use Rattle.farm_history.specs.History.{last_place};
ghost use Rattle.shared_posts.specs.Callers.{IsReady};
ghost use Rattle.post_turns.specs.Running.{Converses};
ghost use Rattle.shared_posts.specs.Running.{HasRun};

use boxed_disk::BoxedDisk;
use desk_posts::{PostRoom, run_post};
use desk_turns::TurnAccess;
use farm_desk::Desk;
use farm_disk::Disk;
use farm_listeners::Listener;
use farm_ports::Clock;
use farm_turn::Turn;
use shared_posts::{Caller, DeskCaller, Post};
use std::alloc::Global;
use std::sync::Wait;

/// A desk post, over a listener.
pub type DeskPost<L, D, const LIMIT: usize> = Post<L, PostRoom, DeskCaller<D, LIMIT>>;

/// Runs a desk post on a port, as its caller, by turns.
pub fn run_desk_post<R: Wait, D: Disk, L: Listener, C: Clock, const LIMIT: usize>(
    rt: &R,
    alloc: Global,
    turn: &Turn<Desk<BoxedDisk<D>, LIMIT>>,
    post: &mut DeskPost<L, D, LIMIT>,
    clock: &C,
    port: u16,
    opened: u32,
)
    requires ready { (number : ℕ) × IsReady IsSome turn.now number post.old }
    requires opened { opened ≡ last_place turn.now.opening.history }
    ensures ran { HasRun (Converses L.events L.faults (C.may_give clock.now) LIMIT port) turn.now post.old post.new }
{
    let Some(Caller { pass, number }) = post.caller.take() else {
        unreachable!()
    };
    let Some(mut room) = post.work.take() else {
        unreachable!()
    };
    let mut access = TurnAccess::new(rt, turn, pass, number, opened as usize);
    let end = run_post(
        rt,
        alloc,
        &mut room,
        &mut post.outside,
        &mut access,
        clock,
        port,
    );
    post.work = Some(room);
    post.end = Some(end);
    post.caller = Some(Caller {
        pass: access.into_pass(),
        number,
    });
}
