//! What an entry that comes next issues and posts, on the figures that it names.

ghost use Rattle.std.specs.Prelude.{◌≡◌, ◌+◌, IfSome, IsTrue};
ghost use Rattle.farm_history.specs.History.{last_place};
ghost use Rattle.farm_history.specs.MovementRules.{is_closing};
ghost use Rattle.farm_history.specs.Postings.{posted_by, postings_of};
ghost use Rattle.farm_history.specs.Tickets.{issued_by, next_number};
ghost use Rattle.farm_indexes.specs.Figured.{AreFiguresOf};
ghost use Rattle.farm_indexes.specs.Following.{MayFollow};
ghost use Rattle.farm_indexes.specs.Issuing.{closed_on, is_of_sides};
ghost use Rattle.history_lookups.specs.Bounds.{IsSmallTicket, PostAtMost, most_posted};
ghost use Rattle.history_lookups.specs.Ledgers.{AreBooksOf, AreBounded, books_after, listed_postings};
ghost use Rattle.history_lookups.specs.Pasts.{IsReadable};

use crate::{Figured, Indexed, PastFacts};
use farm_fixed::Quantities;
use farm_history::{Command, Entry};
use farm_movement::{Leg, OpenMove};
use farm_ticket::Ticket;
use history_lookups::{Ledger, Past, Posted, closed, postings_of_ticket};

/// The ticket, with this number, that an entry issues which comes next. `None` for one that is no Closing and no Reverse.
#[inline(always)]
pub(crate) fn issued_on(
    facts: &Indexed<'_>,
    number: u32,
    entry: &Entry,
    figured: &Figured,
) -> Option<Ticket>
    requires follows { MayFollow facts.now entry.now }
    requires readable { IsReadable facts.now }
    requires number { number ≡ next_number facts.now }
    requires figures { AreFiguresOf facts.now entry.now.cmd figured.now }
    ensures ticket { result ≡ issued_by facts.now (last_place facts.now + 1) entry.now.cmd }
    ensures small { IsTrue (is_closing entry.now.cmd) → IfSome result IsSmallTicket }
{
    let past = facts.past();
    let place = past.entries.len() as u32 + 1;
    match &entry.cmd {
        Command::Closing { movement, .. } => closed_on(
            place,
            number,
            facts.movement_at(*movement),
            figured.first,
            figured.second,
        ),
        Command::Reverse { ticket } => past.reversal_numbered(place, number, *ticket),
        _ => None,
    }
}

/// What an entry posts which comes next and issues this ticket, if the ledger has the books before it.
#[inline(always)]
pub(crate) fn posted_on(
    past: &Past<'_>,
    ledger: &Ledger,
    entry: &Entry,
    ticket: &Option<Ticket>,
) -> Posted
    requires readable { IsReadable past.now }
    requires books { AreBooksOf past.now ledger.now }
    requires ticket { ticket.now ≡ issued_by past.now (last_place past.now + 1) entry.now.cmd }
    requires small { IsTrue (is_closing entry.now.cmd) → IfSome ticket.now IsSmallTicket }
    ensures posted { listed_postings result ≡ posted_by past.now (postings_of past.now) entry.now.cmd }
    ensures small { PostAtMost most_posted (listed_postings result) }
    ensures bounded { AreBounded (last_place past.now + 1) (books_after (listed_postings result) ledger.now) }
{
    let Command::Closing { .. } = &entry.cmd else {
        return past.posted_by(ledger, &entry.cmd);
    };
    match ticket {
        Some(ticket) => postings_of_ticket(ticket),
        None => Posted::Nothing,
    }
}

// The ticket, with this number, of what is closed at a place on these figures.
#[inline(always)]
fn closed_on(
    place: u32,
    number: u32,
    movement: Option<OpenMove>,
    first: Option<Quantities>,
    second: Option<Quantities>,
) -> Option<Ticket>
    ensures ticket { result ≡ closed_on place number movement first second }
{
    let movement = movement?;
    let first = first?;
    if !is_of_sides(&movement.second, &second) {
        return None;
    }
    closed(place, number, movement, first, second)
}

// Whether there are figures of the second side if and only if there is a second side.
#[inline(always)]
fn is_of_sides(second: &Option<Leg>, figures: &Option<Quantities>) -> bool
    ensures sides { result ≡ is_of_sides second.now figures.now }
{
    second.is_some() == figures.is_some()
}
