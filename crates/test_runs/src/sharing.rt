//! Types that may go to another thread, and be looked at by two.

use boxed_disk::BoxedDisk;
use command_line::{CommandName, DrillOptions, ServeOptions, Subcommand};
use desk_posts::{PostEnd, PostRoom};
use farm_desk::{Answer, CreateFault, Desk, Opened, RecoverFault};
use farm_disk::MemDisk;
use farm_run::Done;
use std::test::Fail;

// Stands only for a type that is `Send` and `Sync`.
fn shared<T: Send + Sync>() {}

#[test]
fn desks_and_what_they_answer_may_go_to_another_thread(_rt: HostRuntime) -> Result<(), Fail> {
    shared::<Desk<MemDisk, 4>>();
    shared::<Opened>();
    shared::<Answer>();
    shared::<CreateFault>();
    shared::<RecoverFault>();
    Ok(())
}

#[test]
fn commands_and_what_their_runs_work_with_may_go_to_another_thread(
    _rt: HostRuntime,
) -> Result<(), Fail> {
    shared::<Done<MemDisk>>();
    shared::<BoxedDisk<MemDisk>>();
    shared::<Subcommand>();
    shared::<CommandName>();
    shared::<ServeOptions>();
    shared::<DrillOptions>();
    shared::<PostRoom>();
    shared::<PostEnd>();
    Ok(())
}
