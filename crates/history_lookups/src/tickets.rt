//! Tickets among entries: what a movement was opened on, what it is closed on, and what a Closing or a Reverse issues.

ghost use Rattle.std.specs.Prelude.{◌≡◌, ◌↔◌, IfSome, IsSome, option_and_then, option_map};
ghost use Rattle.farm_chain.specs.Volumes.{AreInRange};
ghost use Rattle.farm_ticket.specs.Reversing.{SidesAddUp, reversal};
ghost use Rattle.history_lookups.specs.Bounds.{IsClosedInRange, IsOpenedInRange};
ghost use Rattle.history_lookups.specs.Closings.{closed_by};
ghost use Rattle.history_lookups.specs.Pasts.{IsReadable};
ghost use Rattle.farm_history.specs.Commands.{issues_ticket};
ghost use Rattle.farm_history.specs.History.{before, last_place};
ghost use Rattle.farm_history.specs.Tickets.{closed, closing_ticket, figures_at_closing, issued_by, issued_by_closing, leg_at, movement_of, next_number, plan_to_close, ticket_at, tickets_in, to_close};

use crate::Past;
use crate::figures::named;
use farm_fixed::Quantities;
use farm_history::{Command, Entry, Gauged, Named, Plan};
use farm_movement::{Leg, OpenMove};
use farm_ticket::{Ticket, Way};

/// A movement, and the figures of its tanks that it is to be closed on.
pub type ToClose = (OpenMove, Quantities, Option<Quantities>);

impl Past<'_> {
    /// The ticket of the entry at a place. `None` where no Closing and no Reverse stands there, and where a figure of its sides isn't
    /// calculated or a side goes the wrong way, which doesn't occur in a legal history.
    #[tactic(auto, unfolding(farm_history::specs::Tickets::ticket_at))]
    pub fn ticket_at(&self, place: u32) -> Option<Ticket>
        requires readable { IsReadable self.now }
        ensures ticket { result ≡ ticket_at self.now place }
    {
        let entry = self.entry_at(place)?;
        self.before(place).issued_by(place, &entry.cmd)
    }

    /// The ticket of the entry at a place, if its number is this: `None` as for `ticket_at`. No entries are counted for it.
    #[tactic(auto, unfolding(farm_history::specs::Tickets::ticket_at))]
    #[inline(always)]
    pub fn ticket_numbered(&self, place: u32, number: u32) -> Option<Ticket>
        requires readable { IsReadable self.now }
        ensures ticket { number ≡ next_number (before self.now place) → result ≡ ticket_at self.now place }
    {
        let entry = self.entry_at(place)?;
        let past = self.before(place);
        match &entry.cmd {
            Command::Reverse { ticket } => past.reversal_numbered(place, number, *ticket),
            command => past.closing_numbered(place, number, command),
        }
    }

    // The ticket that a Closing issues at a place with this number, after these entries. `None` for another command.
    #[inline(always)]
    fn closing_numbered(&self, place: u32, number: u32, command: &Command) -> Option<Ticket>
        requires readable { IsReadable self.now }
        ensures ticket { result ≡ option_and_then (closed place number) (closed_by self.now command.now) }
        ensures adds_up { IfSome result SidesAddUp }
    {
        let (movement, first, second) = self.closed_by(command)?;
        closed(place, number, movement, first, second)
    }

    /// The ticket that reverses that of a Closing, issued at a place with this number. It doesn't tell the number of the other, and no
    /// entries are counted for it.
    #[tactic(auto, unfolding(farm_history::specs::Tickets::closing_ticket))]
    pub fn reversal_numbered(&self, place: u32, number: u32, reversed: u32) -> Option<Ticket>
        requires readable { IsReadable self.now }
        ensures ticket { result ≡ option_map (reversal place number) (closing_ticket self.now reversed) }
    {
        let entry = self.entry_at(reversed)?;
        let unnumbered = self
            .before(reversed)
            .closing_numbered(reversed, 0, &entry.cmd)?;
        Some(unnumbered.reversal(place, number))
    }

    // The ticket that a command issues at a place, after these entries.
    fn issued_by(&self, place: u32, command: &Command) -> Option<Ticket>
        requires readable { IsReadable self.now }
        ensures ticket { result ≡ issued_by self.now place command.now }
    {
        let Command::Reverse { ticket } = command else {
            return self.issued_by_closing(place, command);
        };
        let reversed = self.closing_ticket(*ticket)?;
        Some(reversed.reversal(place, self.next_number()))
    }

    /// The ticket of the Closing at a place. `None` as for `ticket_at`, and where a Reverse stands there.
    #[tactic(auto, unfolding(farm_history::specs::Tickets::closing_ticket))]
    pub fn closing_ticket(&self, place: u32) -> Option<Ticket>
        requires readable { IsReadable self.now }
        ensures ticket { result ≡ closing_ticket self.now place }
        ensures adds_up { IfSome result SidesAddUp }
    {
        let entry = self.entry_at(place)?;
        self.before(place).issued_by_closing(place, &entry.cmd)
    }

    // The ticket that a Closing issues at a place, after these entries.
    #[inline(always)]
    fn issued_by_closing(&self, place: u32, command: &Command) -> Option<Ticket>
        requires readable { IsReadable self.now }
        ensures ticket { result ≡ issued_by_closing self.now place command.now }
        ensures adds_up { IfSome result SidesAddUp }
    {
        let (movement, first, second) = self.closed_by(command)?;
        closed(place, self.next_number(), movement, first, second)
    }

    // The movement that a Closing names, and the figures that it closes it on. `None` where one of these isn't there, and for a command
    // that is no Closing.
    #[inline(always)]
    pub(crate) fn closed_by(&self, command: &Command) -> Option<ToClose>
        requires readable { IsReadable self.now }
        ensures closed_by { result ≡ closed_by self.now command.now }
        ensures sides { IfSome result (λ close. IsSome close.2 ↔ IsSome close.0.second) }
        ensures range { IfSome result IsClosedInRange }
    {
        match command {
            Command::Closing {
                movement,
                first,
                second,
            } => self.to_close(*movement, first, second),
            _ => None,
        }
    }

    /// The number of the next ticket: one more than Closings and Reverses.
    pub fn next_number(&self) -> u32
        requires readable { IsReadable self.now }
        ensures number { result ≡ next_number self.now }
    {
        let mut count = 0;
        for entry in self.entries {
            if issues_ticket(&entry.cmd) {
                count += 1;
            }
        }
        count + 1
    }

    // The movement that a Closing names, and the figures that it closes it on. `None` where one of these isn't there.
    #[tactic(auto, unfolding(farm_history::specs::Tickets::to_close))]
    #[inline(always)]
    fn to_close(&self, movement: u32, first: &Gauged, second: &Option<Gauged>) -> Option<ToClose>
        requires readable { IsReadable self.now }
        ensures to_close { result ≡ to_close self.now movement first.now second.now }
        ensures sides { IfSome result (λ close. IsSome close.2 ↔ IsSome close.0.second) }
        ensures range { IfSome result IsClosedInRange }
    {
        let plan = self.opened_at(movement)?;
        let opened = self.movement_of(movement, &plan)?;
        let (first, second) = self.figures_at_closing(first, second, &plan)?;
        Some((opened, first, second))
    }

    /// The movement that a plan opens at a place. `None` if a figure of its tanks isn't calculated.
    #[tactic(auto, unfolding(farm_history::specs::Tickets::movement_of))]
    #[inline(always)]
    pub fn movement_of(&self, place: u32, plan: &Plan) -> Option<OpenMove>
        requires readable { IsReadable self.now }
        ensures movement { result ≡ movement_of self.now place plan.now }
        ensures range { IfSome result IsOpenedInRange }
    {
        match plan {
            Plan::Outside {
                way,
                tank,
                party,
                gauged,
            } => {
                let leg = self.leg_at(*way, &named(*tank, gauged))?;
                Some(OpenMove::new(place, *party, leg, None))
            }
            Plan::Transfer {
                from,
                to,
                from_gauged,
                to_gauged,
            } => {
                let leg = self.leg_at(Way::Outward, &named(*from, from_gauged))?;
                let other = self.leg_at(Way::Inward, &named(*to, to_gauged))?;
                Some(OpenMove::new(place, 0, leg, Some(other)))
            }
        }
    }

    // A side of a movement at its opening.
    #[tactic(auto, unfolding(farm_history::specs::Tickets::leg_at))]
    #[inline(always)]
    fn leg_at(&self, way: Way, pair: &Named) -> Option<Leg>
        requires readable { IsReadable self.now }
        ensures leg { result ≡ leg_at self.now way pair.now }
        ensures range { IfSome result (λ leg. AreInRange leg.opening) }
    {
        let opening = self.figures_at(pair)?;
        Some(Leg {
            tank: pair.tank,
            way,
            reading: pair.gauged.reading,
            sample: pair.gauged.sample,
            opening,
        })
    }

    // The figures on what a Closing names for the tanks of a plan.
    #[tactic(auto, unfolding(farm_history::specs::Tickets::figures_at_closing))]
    #[inline(always)]
    fn figures_at_closing(
        &self,
        first: &Gauged,
        second: &Option<Gauged>,
        plan: &Plan,
    ) -> Option<(Quantities, Option<Quantities>)>
        requires readable { IsReadable self.now }
        ensures figures { result ≡ figures_at_closing self.now first.now second.now plan.now }
        ensures first_range { IfSome result (λ figures. AreInRange figures.0) }
        ensures second_range { IfSome result (λ figures. IfSome figures.1 AreInRange) }
    {
        match (plan, second) {
            (Plan::Outside { tank, .. }, _) => {
                let figures = self.figures_at(&named(*tank, first))?;
                Some((figures, None))
            }
            (Plan::Transfer { .. }, None) => None,
            (Plan::Transfer { from, to, .. }, Some(second)) => {
                let figures = self.figures_at(&named(*from, first))?;
                let others = self.figures_at(&named(*to, second))?;
                Some((figures, Some(others)))
            }
        }
    }
}

/// The ticket of a movement that is closed at a place, with this number. `None` exactly where a side goes the wrong way.
#[inline(always)]
pub fn closed(
    place: u32,
    number: u32,
    movement: OpenMove,
    first: Quantities,
    second: Option<Quantities>,
) -> Option<Ticket>
    requires sides { IsSome second ↔ IsSome movement.second }
    ensures ticket { result ≡ closed place number (movement, first, second) }
    ensures adds_up { IfSome result SidesAddUp }
{
    match movement.close(place, number, first, second) {
        Ok(closed) => Some(closed.ticket()),
        Err(_) => None,
    }
}

/// Whether a command issues a ticket: a Closing or a Reverse.
pub fn issues_ticket(command: &Command) -> bool
    ensures issues { result ≡ issues_ticket command.now }
{
    matches!(command, Command::Closing { .. } | Command::Reverse { .. })
}
