//! Posts side by side, each in a thread of its own if the machine gives one.

ghost use Rattle.std.specs.Fork.{AcceptsEach};
ghost use Rattle.shared_posts.specs.Sides.{EachChanged};
ghost use denote.Param.Send.{IsSend, IsSync};

use std::thread;
use std::thread::{Threads, join_mut};

// Runs each of these by its index from 0.
fn run_each<R: Threads + Sync, X: Send, F: Fn(usize, &mut X) + Sync>(rt: &R, run: &F, all: &mut [X])
    requires accepts { AcceptsEach F.Fn run.now all.old }
    ensures each { EachChanged F.Fn run.now all.old all.new }
{
    if !all.is_empty() {
        let threads = all.len();
        thread::for_each_mut(rt, all, threads, run);
    }
}

/// Runs those of two kinds side by side, each by its index from 0 among its kind.
pub fn run_both<
    R: Threads + Sync,
    X: Send,
    Y: Send,
    F: Fn(usize, &mut X) + Sync,
    G: Fn(usize, &mut Y) + Sync,
>(rt: &R, run_first: &F, run_second: &G, first: &mut [X], second: &mut [Y])
    requires first { AcceptsEach F.Fn run_first.now first.old }
    requires second { AcceptsEach G.Fn run_second.now second.old }
    ensures first { EachChanged F.Fn run_first.now first.old first.new }
    ensures second { EachChanged G.Fn run_second.now second.old second.new }
{
    let mut first_side = ||
        requires { IsSync R.row × IsSync F.row × IsSend X.row × AcceptsEach F.Fn run_first.now first.now }
        ensures { EachChanged F.Fn run_first.entry.now first.entry.now first.exit.now }
    { run_each(rt, run_first, first) };
    let mut second_side = ||
        requires { IsSync R.row × IsSync G.row × IsSend Y.row × AcceptsEach G.Fn run_second.now second.now }
        ensures { EachChanged G.Fn run_second.entry.now second.entry.now second.exit.now }
    { run_each(rt, run_second, second) };
    join_mut(rt, &mut first_side, &mut second_side);
}
