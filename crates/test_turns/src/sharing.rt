//! Types that may go to another thread, and be looked at by two.

use crate::desks::RowDesk;
use crate::passes::RowTurn;
use desk_turns::{AskJob, LookJob, TurnAccess};
use farm_disk::MemDisk;
use std::sync::Wait;
use std::test::Fail;

// Stands only for a type that is `Send`.
fn sent<T: Send>() {}

// Stands only for a type that is `Send` and `Sync`.
fn shared<T: Send + Sync>() {}

// An access may go to another thread with its pass, which isn't `Sync`.
fn access_sent<'t, R: Wait + Sync>(_rt: &'t R) {
    sent::<TurnAccess<'t, R, MemDisk, 20>>();
}

#[test]
fn jobs_and_accesses_may_go_to_another_thread(rt: HostRuntime) -> Result<(), Fail> {
    access_sent(&rt);
    shared::<RowDesk>();
    shared::<RowTurn>();
    shared::<AskJob<'static>>();
    shared::<LookJob>();
    Ok(())
}
