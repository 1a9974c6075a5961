//! A desk as a value that many callers share by turns.

ghost use Rattle.farm_desk.specs.States.{found_of};
ghost use Rattle.journaled_book.specs.Histories.{certain};

use crate::{Desk, Found};
use farm_disk::Disk;
use farm_history::Entry;
use farm_turn::Chronicle;

/// The past of a desk is its entries, its tally the answers that were `DiskFault`, and its mark the entries that aren't in doubt.
impl<D: Disk, const LIMIT: usize> Chronicle for Desk<D, LIMIT> {
    type Entry = Entry;

    type Root = Found<D, LIMIT>;

    ghost past = { λ desk. desk.history.entries };

    ghost caller_of = { λ entry. entry.caller };

    ghost root = { found_of };

    ghost tally = { λ desk. desk.failed };

    ghost mark = { λ desk. certain desk.doubt desk.history };

    fn len(&self) -> u64 {
        self.book().entries().len() as u64
    }
}
