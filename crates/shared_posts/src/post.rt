//! A post.

ghost use Rattle.std.specs.Prelude.{◌≡◌, None};

use boxed_disk::BoxedDisk;
use desk_posts::PostEnd;
use farm_desk::Found;
use farm_history::Entry;
use farm_turn::Pass;

/// A caller of a desk that is shared by turns: its pass, and its number.
#[derive(Drop)]
pub struct Caller<P> {
    /// Its pass.
    pub pass: P,
    /// Its number.
    pub number: u32,
}

/// A pass of a desk on a boxed disk.
pub type DeskPass<D, const LIMIT: usize> = Pass<Entry, Found<BoxedDisk<D>, LIMIT>>;

/// A caller of a desk on a boxed disk.
pub type DeskCaller<D, const LIMIT: usize> = Caller<DeskPass<D, LIMIT>>;

/// A post, which works with an object of the outside: a desk post with a listener, a line with a link.
///
/// While a desk is served it has what it works with beside, and its caller; afterwards a desk post has how it ended.
#[derive(Drop)]
pub struct Post<X, W, C> {
    /// The object.
    pub outside: X,
    /// What it works with beside the object.
    pub work: Option<W>,
    /// How a desk post ended.
    pub end: Option<PostEnd>,
    /// Its caller.
    pub caller: Option<C>,
}

impl<X, W, C> Post<X, W, C> {
    /// A post over this object. Takes no memory.
    pub fn new(outside: X) -> Self
        ensures outside { result.outside ≡ outside }
        ensures no_work { result.work ≡ None }
        ensures no_end { result.end ≡ None }
        ensures no_caller { result.caller ≡ None }
    {
        Post {
            outside,
            work: None,
            end: None,
            caller: None,
        }
    }

    /// The object.
    pub fn outside(&self) -> &X
        ensures outside { result.now ≡ self.now.outside }
    {
        &self.outside
    }

    /// How a desk post ended. `None` if it didn't run.
    pub fn end(&self) -> Option<PostEnd>
        ensures end { result ≡ self.now.end }
    {
        self.end
    }
}
