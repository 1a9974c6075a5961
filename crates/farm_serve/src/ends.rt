//! How desk posts ended.

ghost use Rattle.std.specs.Prelude.{◌≡◌};
ghost use Rattle.farm_serve.specs.Ends.{any_failed, has_failed};

use desk_posts::PostEnd;
use shared_posts::Post;

// Whether a post ended since a call on its listener failed.
fn has_failed<X, W, C>(post: &Post<X, W, C>) -> bool
    ensures { result ≡ has_failed post.now.end }
{
    matches!(post.end, Some(PostEnd::ListenerFailed))
}

/// Whether one of these posts ended since a call on its listener failed.
pub fn any_failed<X, W, C>(posts: &[Post<X, W, C>]) -> bool
    ensures failed { result ≡ any_failed posts.now }
{
    posts.iter().any(has_failed)
}
