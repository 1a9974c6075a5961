//! The books of tanks after the entries, and the gains of settlements.

ghost use Rattle.std.specs.Prelude.{◌≡◌, IfSome};
ghost use Rattle.history_lookups.specs.Ledgers.{AreBooksOf};
ghost use Rattle.history_lookups.specs.Pasts.{IsReadable};
ghost use Rattle.farm_history.specs.Conservation.{IsBoundedBook};
ghost use Rattle.farm_history.specs.History.{last_place};
ghost use Rattle.farm_history.specs.Stocks.{book_of, gain_at, total_of};

use crate::Past;
use crate::ledger::Ledger;
use farm_fixed::Amount;
use farm_history::Command;

impl Past<'_> {
    /// The book of a tank: its opening, and all postings at it. `None` exactly where the site has no such tank.
    ///
    /// One pass over the entries, with the books of all tanks beside it.
    #[tactic(auto, unfolding(farm_history::specs::Stocks::book_of, farm_history::specs::History::tank_after))]
    pub fn book_of(&self, tank: u16) -> Option<Amount>
        requires readable { IsReadable self.now }
        ensures book { result ≡ book_of self.now tank }
        ensures bounded { IfSome result (IsBoundedBook (last_place self.now)) }
    {
        self.ledger().book_of(tank)
    }

    /// The sum of the books of all tanks.
    #[tactic(auto, unfolding(farm_history::specs::Stocks::total_of))]
    pub fn total(&self) -> Amount
        requires readable { IsReadable self.now }
        ensures total { result ≡ total_of self.now }
    {
        self.ledger().total()
    }

    /// The gain of the entry at a place. `None` where no Settle stands there, and where its figures aren't calculated, which doesn't
    /// occur in a legal history.
    #[tactic(auto, unfolding(farm_history::specs::Stocks::gain_at))]
    pub fn gain_at(&self, place: u32) -> Option<Amount>
        requires readable { IsReadable self.now }
        ensures gain { result ≡ gain_at self.now place }
    {
        let entry = self.entry_at(place)?;
        let Command::Settle { tank, gauged } = &entry.cmd else {
            return None;
        };
        let past = self.before(place);
        past.gain_after(&past.ledger(), *tank, gauged)
    }

    /// The books of the tanks after these entries, by one pass over them.
    pub fn ledger(&self) -> Ledger
        requires readable { IsReadable self.now }
        ensures books { AreBooksOf self.now result }
    {
        let mut ledger = Ledger::opened(self.site.tanks.get());
        for (index, entry) in self.entries.iter().enumerate() {
            let posted = self.before(index as u32 + 1).posted_by(&ledger, &entry.cmd);
            ledger.post(&posted);
        }
        ledger
    }
}
