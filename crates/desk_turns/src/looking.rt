//! The job that looks at a desk.

ghost use Rattle.std.specs.Prelude.{◌≡◌, drop};
ghost use Rattle.desk_access.specs.Access.{has_stop};
ghost use Rattle.desk_turns.specs.Jobs.{DoesLook};

use desk_access::has_stop_after;
use farm_desk::Desk;
use farm_disk::Disk;
use farm_history::Entry;
use farm_turn::Job;

/// A look at the history of a desk. It has how many entries its caller has looked at and, once it is done, whether a Stop was past these.
#[derive(Clone, Copy, Debug, PartialEq, Eq)]
pub struct LookJob {
    /// How many entries its caller has looked at.
    pub looked: usize,
    /// Whether a Stop was past the entries that its caller had looked at.
    pub stopped: bool,
}

impl<D: Disk, const LIMIT: usize> Job<Desk<D, LIMIT>> for LookJob {
    ghost does = { DoesLook };

    #[tactic(auto, using(farm_desk::proofs::Continuing::begins_with))]
    fn run(&mut self, _caller: u32, desk: &mut Desk<D, LIMIT>) {
        let entries = desk.book().entries();
        self.stopped = has_stop_past(self.looked, entries);
        self.looked = entries.len();
    }
}

// Whether a Stop is among the entries after the first ones, of which there may be fewer.
pub(crate) fn has_stop_past(looked: usize, entries: &[Entry]) -> bool
    ensures stop { result ≡ has_stop (drop looked entries.now) }
{
    has_stop_after(looked.min(entries.len()), entries)
}
