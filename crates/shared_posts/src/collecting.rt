//! What is collected of posts that ran.

ghost use Rattle.std.specs.Prelude.{◌≡◌, ◌+◌, ◌≤◌, ◌++◌, length, vec_capacity, vec_len};
ghost use Rattle.shared_posts.specs.Callers.{HaveCallers, passes_of, without_callers};

use crate::post::{Caller, DeskCaller, DeskPass, Post};
use farm_disk::Disk;

/// Takes the passes of posts that each have a caller, in their order, into a list that has room for them.
pub(crate) fn take_passes<X: Drop, W: Drop, D: Disk, const LIMIT: usize>(
    posts: &mut [Post<X, W, DeskCaller<D, LIMIT>>],
    passes: &mut Vec<DeskPass<D, LIMIT>>,
)
    requires callers { HaveCallers posts.old }
    requires room { vec_len passes.old + length posts.old ≤ vec_capacity passes.old }
    ensures taken { passes.new.items ≡ passes.old.items ++ passes_of posts.old }
    ensures kept { posts.new ≡ without_callers posts.old }
    ensures length { vec_len passes.new ≡ vec_len passes.old + length posts.old }
    ensures capacity { vec_capacity passes.new ≡ vec_capacity passes.old }
{
    for post in posts.iter_mut() {
        let Some(Caller { pass, number: _ }) = post.caller.take() else {
            unreachable!()
        };
        passes.push_reserved(pass);
    }
}
