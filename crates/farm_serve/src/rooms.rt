//! What desk posts work with, had before any of them begins.

ghost use Rattle.std.specs.Prelude.{◌≡◌, All, IsSome, OnOk, map};
ghost use Rattle.shared_posts.specs.Callers.{outsides_of};

use desk_posts::PostRoom;
use farm_base::NoMemory;
use farm_disk::Disk;
use post_turns::DeskPost;
use std::alloc::Global;

/// Gives each desk post room for the bytes of a connection. It takes the memory of all.
pub(crate) fn make_rooms<L: Drop, D: Disk, const LIMIT: usize>(
    alloc: Global,
    posts: &mut [DeskPost<L, D, LIMIT>],
) -> Result<(), NoMemory>
    ensures rooms { OnOk result (All (λ post. IsSome post.work) posts.new) }
    ensures outsides { outsides_of posts.new ≡ outsides_of posts.old }
{
    for post in posts.iter_mut() {
        post.work = Some(PostRoom::new(alloc)?);
    }
    Ok(())
}
