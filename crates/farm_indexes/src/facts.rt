//! What the rules and look-ups ask of a history.

ghost use Rattle.std.specs.Prelude.{◌≡◌, IfOk, IfSome};
ghost use Rattle.farm_chain.specs.Volumes.{AreInRange};
ghost use Rattle.farm_history.specs.Conservation.{IsBoundedBook};
ghost use Rattle.farm_history.specs.Figures.{calculated_at};
ghost use Rattle.farm_history.specs.History.{History, last_place};
ghost use Rattle.farm_history.specs.Movements.{holding_movement, last_settlement, open_movement, reversal_of, used_reading};
ghost use Rattle.farm_history.specs.Places.{first_place};
ghost use Rattle.farm_history.specs.Stocks.{book_of, gain_at, last_reading, last_sample, total_of};
ghost use Rattle.farm_history.specs.Tickets.{closing_ticket, ticket_at};
ghost use Rattle.farm_indexes.specs.Keys.{has_key};
ghost use Rattle.farm_indexes.specs.OpenMoves.{movement_at};
ghost use Rattle.history_lookups.specs.Bounds.{IsOpenedInRange};
ghost use Rattle.history_lookups.specs.Pasts.{IsReadable};

use farm_fixed::{Amount, ChainRule, Quantities};
use farm_history::{Named, Plan};
use farm_movement::OpenMove;
use farm_ticket::Ticket;
use history_lookups::Past;

/// The facts of a history that depend on more than a few of its entries.
///
/// Contracts see its history. Each fact is the one that the whole list of entries gives.
pub trait PastFacts {
    /// The history.
    ghost history: { Self → History };

    /// The site and the entries, to look at those at known places.
    fn past(&self) -> Past<'_>
        ensures past { result ≡ Self.history self.now };

    /// The place of the first entry with an account and a key. `None` if and only if no entry has them.
    fn place_of(&self, account: u32, key: u64) -> Option<u32>
        requires readable { IsReadable (Self.history self.now) }
        ensures place { result ≡ first_place (has_key account key) (Self.history self.now).entries };

    /// The place of the first movement that is open and names a tank. `None` if and only if no open movement names it.
    fn holding_movement(&self, tank: u16) -> Option<u32>
        requires readable { IsReadable (Self.history self.now) }
        ensures holding { result ≡ holding_movement (Self.history self.now) tank };

    /// The plan of the movement that is open at a place. `None` if and only if no movement is open there.
    fn open_movement(&self, place: u32) -> Option<Plan>
        ensures open { result ≡ open_movement (Self.history self.now) place };

    /// The movement that is open at a place, with the figures that it was opened on. `None` if no movement is open there.
    fn movement_at(&self, place: u32) -> Option<OpenMove>
        requires readable { IsReadable (Self.history self.now) }
        ensures movement { result ≡ movement_at (Self.history self.now) place }
        ensures range { IfSome result IsOpenedInRange };

    /// The custody calculation of a tank on the reading and the sample that are named for it. `None` as for `Past::calculated_at`.
    fn calculated_at(&self, pair: &Named) -> Option<Result<Quantities, ChainRule>>
        requires readable { IsReadable (Self.history self.now) }
        ensures calculated { result ≡ calculated_at (Self.history self.now) pair.now }
        ensures range { IfSome result (λ calculated. IfOk calculated AreInRange) };

    /// The place of the reading that the last Closing or Settle of a tank used for it. `None` if and only if there is no such entry.
    fn used_reading(&self, tank: u16) -> Option<u32>
        ensures used { result ≡ used_reading (Self.history self.now) tank };

    /// The place of the last gauge's reading or dip of a tank. `None` if and only if there isn't one.
    fn last_reading(&self, tank: u16) -> Option<u32>
        requires readable { IsReadable (Self.history self.now) }
        ensures reading { result ≡ last_reading (Self.history self.now) tank };

    /// The place of the last sample of a tank. `None` if and only if there isn't one.
    fn last_sample(&self, tank: u16) -> Option<u32>
        requires readable { IsReadable (Self.history self.now) }
        ensures sample { result ≡ last_sample (Self.history self.now) tank };

    /// The place of the last Settle of a tank. `None` if and only if there isn't one.
    fn last_settlement(&self, tank: u16) -> Option<u32>
        requires readable { IsReadable (Self.history self.now) }
        ensures settlement { result ≡ last_settlement (Self.history self.now) tank };

    /// The place of the Reverse that names a ticket. `None` if and only if none does.
    fn reversal_of(&self, ticket: u32) -> Option<u32>
        requires readable { IsReadable (Self.history self.now) }
        ensures reversal { result ≡ reversal_of (Self.history self.now) ticket };

    /// The ticket of the entry at a place. `None` if no Closing and no Reverse stands there.
    fn ticket_at(&self, place: u32) -> Option<Ticket>
        requires readable { IsReadable (Self.history self.now) }
        ensures ticket { result ≡ ticket_at (Self.history self.now) place };

    /// The ticket of the Closing at a place. `None` if no Closing stands there.
    fn closing_ticket(&self, place: u32) -> Option<Ticket>
        requires readable { IsReadable (Self.history self.now) }
        ensures ticket { result ≡ closing_ticket (Self.history self.now) place };

    /// The gain of the entry at a place. `None` if no Settle stands there.
    fn gain_at(&self, place: u32) -> Option<Amount>
        requires readable { IsReadable (Self.history self.now) }
        ensures gain { result ≡ gain_at (Self.history self.now) place };

    /// The book of a tank, which is within its bound. `None` if and only if the site has no such tank.
    fn book_of(&self, tank: u16) -> Option<Amount>
        requires readable { IsReadable (Self.history self.now) }
        ensures book { result ≡ book_of (Self.history self.now) tank }
        ensures bounded { IfSome result (IsBoundedBook (last_place (Self.history self.now))) };

    /// The sum of the books of all tanks.
    fn total(&self) -> Amount
        requires readable { IsReadable (Self.history self.now) }
        ensures total { result ≡ total_of (Self.history self.now) };
}
