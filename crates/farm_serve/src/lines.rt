//! What gauge lines work with, had before any of them begins.

ghost use Rattle.std.specs.Prelude.{◌≡◌, ◌≤◌, All, IsTrue, IfOk, OnOk, length};
ghost use Rattle.gauge_maps.specs.Maps.{is_line_map};
ghost use Rattle.modbus_poll.specs.Polls.{fresh};
ghost use Rattle.shared_posts.specs.Callers.{HaveWork, outsides_of};
ghost use Rattle.post_turns.specs.Running.{HasLine};

use farm_base::NoMemory;
use farm_desk::Desk;
use farm_disk::Disk;
use line_posts::GaugeLine;
use modbus_poll::LineMap;
use post_turns::LinePost;
use std::alloc::Global;

/// The gauge lines of the site of a desk.
pub(crate) fn lines_of<D: Disk, const LIMIT: usize>(desk: &Desk<D, LIMIT>) -> &[LineMap]
    ensures lines { result.now ≡ desk.now.history.site.lines }
    ensures maps { All (λ line. IsTrue (is_line_map line)) result.now }
    ensures few { length result.now ≤ 16 }
{
    desk.book().site().lines.get()
}

// A line, before its first poll.
fn new_line(alloc: Global, map: &LineMap) -> Result<GaugeLine, NoMemory>
    requires map { IsTrue (is_line_map map.now) }
    ensures begins { IfOk result (λ line. line ≡ fresh map.now) }
{
    GaugeLine::new(alloc, map.copy(alloc)?)
}

/// Gives the post at each index the line of the site at that index, before its first poll. It takes the memory of all.
pub(crate) fn make_lines<M: Drop, D: Disk, const LIMIT: usize>(
    alloc: Global,
    posts: &mut [LinePost<M, D, LIMIT>],
    lines: &[LineMap],
) -> Result<(), NoMemory>
    requires maps { All (λ line. IsTrue (is_line_map line)) lines.now }
    requires enough { length posts.old ≤ length lines.now }
    ensures lines { OnOk result (HaveWork (HasLine lines.now) 0 posts.new) }
    ensures outsides { outsides_of posts.new ≡ outsides_of posts.old }
{
    for index in 0..posts.len() {
        posts[index].work = Some(new_line(alloc, &lines[index])?);
    }
    Ok(())
}
