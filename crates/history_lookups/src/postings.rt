//! What entries post to the books of tanks.

ghost use Rattle.std.specs.Prelude.{◌≡◌, ℕ, ◌+◌, ◌*◌, IfSome, map};
ghost use Rattle.history_lookups.specs.Bounds.{AreSmallPostings, IsAtMost, IsGainOf, IsSmallSide, IsSmallTicket, MoveAtMost, PostAtMost, most_moved, most_posted};
ghost use Rattle.history_lookups.specs.Ledgers.{AreBooksOf, AreBounded, books_after, listed_postings};
ghost use Rattle.history_lookups.specs.Pasts.{IsReadable};
ghost use Rattle.farm_history.specs.History.{last_place};
ghost use Rattle.farm_history.specs.Postings.{amount_moved, gain_after, gain_posted, opposite_posting, outside_posting, posted_by, postings_issued, postings_of, postings_of_ticket, unnamed};
ghost use Rattle.farm_history.specs.Tickets.{closing_ticket, issued_by_closing};

use crate::Past;
use crate::amounts::{amount_held, amount_moved, less, opposite};
use crate::figures::named;
use crate::ledger::Ledger;
use crate::tickets::closed;
use farm_fixed::Amount;
use farm_history::{Command, Gauged};
use farm_stock::{Kind, Posting};
use farm_ticket::{Side, Ticket, Way};

/// What one entry posts.
#[derive(Clone, Copy)]
pub enum Posted {
    /// Nothing.
    Nothing,
    /// A receipt, a delivery or a gain.
    One(Posting),
    /// What a transfer takes out of its first tank, what it brings into its second, and what that gains.
    Transfer {
        /// What is taken out of the first tank.
        taken: Posting,
        /// What is brought into the second.
        brought: Posting,
        /// What the second gains.
        gain: Posting,
    },
}

impl Past<'_> {
    /// What a command posts after these entries, if the ledger has the books after them. But for a gain each posting is of at most twice
    /// what a tank holds by its figures.
    #[tactic(auto, unfolding(farm_history::specs::Postings::posted_by))]
    #[inline(always)]
    pub fn posted_by(&self, ledger: &Ledger, command: &Command) -> Posted
        requires readable { IsReadable self.now }
        requires books { AreBooksOf self.now ledger.now }
        ensures posted { listed_postings result ≡ posted_by self.now (postings_of self.now) command.now }
        ensures small { PostAtMost most_posted (listed_postings result) }
        ensures moved { MoveAtMost (2 * most_moved) (listed_postings result) }
        ensures bounded { AreBounded (last_place self.now + 1) (books_after (listed_postings result) ledger.now) }
    {
        match command {
            Command::Closing { .. } => self.posted_by_closing(command),
            Command::Reverse { ticket } => self.posted_by_reverse(*ticket),
            Command::Settle { tank, gauged } => self.posted_by_settle(ledger, *tank, gauged),
            _ => Posted::Nothing,
        }
    }

    // What a Closing posts after these entries. The place and the number of its ticket don't matter, so no entries are counted for it.
    #[inline(always)]
    fn posted_by_closing(&self, command: &Command) -> Posted
        requires readable { IsReadable self.now }
        ensures posted { (place : ℕ) → listed_postings result ≡ postings_issued (issued_by_closing self.now place command.now) }
        ensures small { AreSmallPostings (listed_postings result) }
    {
        match self.unnumbered_ticket(command) {
            Some(ticket) => postings_of_ticket(&ticket),
            None => Posted::Nothing,
        }
    }

    // The ticket that a Closing issues after these entries, but for its place and its number.
    #[inline(always)]
    fn unnumbered_ticket(&self, command: &Command) -> Option<Ticket>
        requires readable { IsReadable self.now }
        ensures ticket { (place : ℕ) → postings_issued result ≡ postings_issued (issued_by_closing self.now place command.now) }
        ensures small { IfSome result IsSmallTicket }
    {
        let (movement, first, second) = self.closed_by(command)?;
        closed(0, 0, movement, first, second)
    }

    // What a Reverse posts: what the ticket at a place posted, with the opposite amounts.
    #[tactic(auto, unfolding(farm_history::specs::Tickets::closing_ticket))]
    fn posted_by_reverse(&self, ticket: u32) -> Posted
        requires readable { IsReadable self.now }
        ensures posted { listed_postings result ≡ map opposite_posting (postings_issued (closing_ticket self.now ticket)) }
        ensures small { AreSmallPostings (listed_postings result) }
    {
        match self.entry_at(ticket) {
            Some(entry) => opposite_postings(&self.before(ticket).posted_by_closing(&entry.cmd)),
            None => Posted::Nothing,
        }
    }

    // What a Settle posts: its gain.
    fn posted_by_settle(&self, ledger: &Ledger, tank: u16, gauged: &Gauged) -> Posted
        requires readable { IsReadable self.now }
        requires books { AreBooksOf self.now ledger.now }
        ensures posted { listed_postings result ≡ gain_posted tank (gain_after self.now (postings_of self.now) tank gauged.now) }
        ensures small { PostAtMost most_posted (listed_postings result) }
        ensures moved { MoveAtMost (2 * most_moved) (listed_postings result) }
        ensures bounded { AreBounded (last_place self.now + 1) (books_after (listed_postings result) ledger.now) }
    {
        // Looked at for the proof alone: the numbers of a site's tanks differ, so a gain is added to one book.
        let _ = &self.site;
        match self.gain_after(ledger, tank, gauged) {
            Some(gain) => Posted::One(unnamed(tank, Kind::Gain, gain)),
            None => Posted::Nothing,
        }
    }

    // The gain of a tank that is settled after these entries, where the ledger has the books after them. `None` where the site has no such
    // tank, and where its figures aren't calculated.
    #[tactic(auto, unfolding(farm_history::specs::Postings::gain_after, farm_history::specs::History::tank_after))]
    pub(crate) fn gain_after(&self, ledger: &Ledger, tank: u16, gauged: &Gauged) -> Option<Amount>
        requires readable { IsReadable self.now }
        requires books { AreBooksOf self.now ledger.now }
        ensures gain { result ≡ gain_after self.now (postings_of self.now) tank gauged.now }
        ensures small { IfSome result (IsAtMost most_posted) }
        ensures held { IfSome result (IsGainOf tank ledger.now) }
    {
        let book = ledger.book_of(tank)?;
        let figures = self.figures_at(&named(tank, gauged))?;
        Some(less(amount_held(&figures), book))
    }
}

/// The postings of a ticket.
#[inline(always)]
pub fn postings_of_ticket(ticket: &Ticket) -> Posted
    requires small { IsSmallTicket ticket.now }
    ensures posted { listed_postings result ≡ postings_of_ticket ticket.now }
{
    let moved = amount_moved(&ticket.first.moved);
    match &ticket.second {
        None => Posted::One(outside_posting(ticket.party, &ticket.first)),
        Some(second) => {
            let gain = less(amount_moved(&second.moved), moved);
            Posted::Transfer {
                taken: unnamed(ticket.first.tank, Kind::TransferOut, opposite(moved)),
                brought: unnamed(second.tank, Kind::TransferIn, moved),
                gain: unnamed(second.tank, Kind::Gain, gain),
            }
        }
    }
}

// The postings with the opposite amounts.
fn opposite_postings(posted: &Posted) -> Posted
    requires small { PostAtMost most_posted (listed_postings posted.now) }
    ensures posted { listed_postings result ≡ map opposite_posting (listed_postings posted.now) }
{
    match posted {
        Posted::Nothing => Posted::Nothing,
        Posted::One(posting) => Posted::One(opposite_posting(posting)),
        Posted::Transfer {
            taken,
            brought,
            gain,
        } => Posted::Transfer {
            taken: opposite_posting(taken),
            brought: opposite_posting(brought),
            gain: opposite_posting(gain),
        },
    }
}

// A posting with the opposite amount.
fn opposite_posting(posting: &Posting) -> Posting
    requires small { IsAtMost most_posted posting.now.amount }
    ensures posting { result ≡ opposite_posting posting.now }
{
    Posting {
        amount: opposite(posting.amount),
        ..*posting
    }
}

// The posting of a receipt or a delivery.
#[inline(always)]
fn outside_posting(party: u16, side: &Side) -> Posting
    requires small { IsSmallSide side.now }
    ensures posting { result ≡ outside_posting party side.now.tank side.now.way (amount_moved side.now.moved) }
{
    let moved = amount_moved(&side.moved);
    let (kind, amount) = match side.way {
        Way::Inward => (Kind::Receipt, moved),
        Way::Outward => (Kind::Delivery, opposite(moved)),
    };
    Posting {
        tank: side.tank,
        kind,
        party,
        amount,
    }
}

// The posting of an amount for which no party is named.
#[inline(always)]
fn unnamed(tank: u16, kind: Kind, amount: Amount) -> Posting
    ensures posting { result ≡ unnamed tank kind amount }
{
    Posting {
        tank,
        kind,
        party: 0,
        amount,
    }
}
