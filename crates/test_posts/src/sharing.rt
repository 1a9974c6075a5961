//! Posts and gauge lines, which may go to another thread with all that they hold.

use crate::desks::{RowLine, RowPost};
use std::test::Fail;

// Stands only for a type that is `Send`.
fn sent<T: Send>() {}

#[test]
fn posts_and_lines_may_go_to_another_thread(_rt: HostRuntime) -> Result<(), Fail> {
    sent::<RowPost<'static>>();
    sent::<RowLine<'static>>();
    Ok(())
}
