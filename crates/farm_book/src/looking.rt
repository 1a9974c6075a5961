//! Looking up what a book keeps: a ticket, the stock of a tank, the total.

ghost use Rattle.std.specs.Prelude.{◌≡◌, ℕ, IsNone, IsSome};
ghost use Rattle.farm_book.specs.Replies.{IsStockReply, IsTicketReply, IsTotalReply, IssuesAt};
ghost use Rattle.farm_history.specs.Desk.{looked_up};
ghost use Rattle.farm_history.specs.History.{tank_after};

use crate::Book;
use farm_history::{Query, Reply, Rule};
use farm_indexes::PastFacts;

impl<const LIMIT: usize> Book<LIMIT> {
    /// The answer to a look-up. Takes no memory.
    ///
    /// Of a ticket it is the ticket of the place, or `Refused(UnknownTicket)` exactly where no Closing and no Reverse stands there. Of
    /// a stock it is the book of the tank with its last reading and its last sample, or `Refused(UnknownTank)` exactly where the site
    /// has no such tank. Of the total it is the number of entries and the sum of the books.
    #[tactic(auto, unfolding(farm_history::specs::Desk::looked_up))]
    pub fn look(&self, query: &Query) -> Reply
        ensures looked_up { result ≡ looked_up self.now.history query.now }
        ensures ticket { (place : ℕ) → query.now ≡ Query.Ticket place → IssuesAt self.now.history place →
            IsTicketReply self.now.history place result }
        ensures none { (place : ℕ) → query.now ≡ Query.Ticket place → ¬ (IssuesAt self.now.history place) →
            result ≡ Reply.Refused Rule.UnknownTicket }
        ensures stock { (tank : ℕ) → query.now ≡ Query.Stock tank → IsSome (tank_after self.now.history tank) →
            IsStockReply self.now.history tank result }
        ensures no_tank { (tank : ℕ) → query.now ≡ Query.Stock tank → IsNone (tank_after self.now.history tank) →
            result ≡ Reply.Refused Rule.UnknownTank }
        ensures total { query.now ≡ Query.Total → IsTotalReply self.now.history result }
    {
        match query {
            Query::Ticket(place) => self.look_at_ticket(*place),
            Query::Stock(tank) => self.look_at_stock(*tank),
            Query::Total => self.look_at_total(),
        }
    }

    // The ticket of a place.
    #[tactic(auto, unfolding(farm_history::specs::Desk::looked_up))]
    fn look_at_ticket(&self, place: u32) -> Reply
        ensures looked_up { result ≡ looked_up self.now.history (Query.Ticket place) }
        ensures ticket { IssuesAt self.now.history place → IsTicketReply self.now.history place result }
        ensures none { ¬ (IssuesAt self.now.history place) → result ≡ Reply.Refused Rule.UnknownTicket }
    {
        match self.facts().ticket_at(place) {
            Some(ticket) => Reply::Ticket(ticket),
            None => Reply::Refused(Rule::UnknownTicket),
        }
    }

    // The book of a tank.
    #[tactic(auto, unfolding(farm_history::specs::Desk::looked_up))]
    fn look_at_stock(&self, tank: u16) -> Reply
        ensures looked_up { result ≡ looked_up self.now.history (Query.Stock tank) }
        ensures stock { IsSome (tank_after self.now.history tank) → IsStockReply self.now.history tank result }
        ensures no_tank { IsNone (tank_after self.now.history tank) → result ≡ Reply.Refused Rule.UnknownTank }
    {
        let facts = self.facts();
        match facts.book_of(tank) {
            Some(amount) => Reply::Stock {
                tank,
                amount,
                reading: facts.last_reading(tank).unwrap_or(0),
                sample: facts.last_sample(tank).unwrap_or(0),
            },
            None => Reply::Refused(Rule::UnknownTank),
        }
    }

    // What the terminal holds in all.
    #[tactic(auto, unfolding(farm_history::specs::Desk::looked_up))]
    fn look_at_total(&self) -> Reply
        ensures looked_up { result ≡ looked_up self.now.history Query.Total }
        ensures total { IsTotalReply self.now.history result }
    {
        Reply::Total {
            entries: self.entries().len() as u32,
            amount: self.facts().total(),
        }
    }
}
