//! A past with its indexes.

ghost use Rattle.std.specs.Prelude.{◌≡◌, IsTrue};
ghost use Rattle.farm_history.specs.Commands.{names_tank};
ghost use Rattle.farm_indexes.specs.Following.{IsOrderly};
ghost use Rattle.farm_indexes.specs.Indexing.{AreIndexesOf};

use crate::PastFacts;
use crate::indexes::Indexes;
use farm_fixed::{Amount, ChainRule, Quantities};
use farm_history::{Command, Named, Plan};
use farm_movement::OpenMove;
use farm_ticket::Ticket;
use history_lookups::Past;
use std::marker::Model;

/// A past with its indexes. In a clause it is its history.
#[derive(Drop)]
pub struct Indexed<'p> {
    past: Past<'p>,
    indexes: &'p Indexes,
}

impl<'p> Model for Indexed<'p> {
    ghost use Rattle.farm_history.specs.History.{History};
    ghost use Rattle.farm_indexes.specs.Following.{IsOrderly};
    ghost use Rattle.farm_indexes.specs.Indexing.{AreIndexesOf};

    ghost Value = { History };

    ghost view = { λ indexed. indexed.past };

    ghost invariant = { λ indexed. IsOrderly indexed.past × AreIndexesOf indexed.past indexed.indexes.now };
}

impl<'p> Indexed<'p> {
    /// A past, with indexes that are those of its history.
    pub fn new(past: Past<'p>, indexes: &'p Indexes) -> Indexed<'p>
        requires orderly { IsOrderly past }
        requires indexes { AreIndexesOf past indexes.now }
        ensures history { result ≡ past.entry }
    {
        Indexed { past, indexes }
    }
}

impl PastFacts for Indexed<'_> {
    ghost history = { λ indexed. indexed };

    #[inline(always)]
    fn past(&self) -> Past<'_> {
        Past {
            site: self.past.site,
            entries: self.past.entries,
        }
    }

    #[inline(always)]
    fn place_of(&self, account: u32, key: u64) -> Option<u32> {
        self.indexes.keys.place_of(account, key)
    }

    #[inline(always)]
    fn holding_movement(&self, tank: u16) -> Option<u32> {
        self.indexes.states.of_tank(tank).held_by
    }

    #[tactic(auto, unfolding(farm_history::specs::Movements::open_movement))]
    #[inline(always)]
    fn open_movement(&self, place: u32) -> Option<Plan> {
        let plan = self.past.opened_at(place)?;
        let state = self.indexes.states.of_tank(first_tank(&plan));
        if state.held_by == Some(place) {
            return Some(plan);
        }
        None
    }

    #[inline(always)]
    fn movement_at(&self, place: u32) -> Option<OpenMove> {
        let plan = self.open_movement(place)?;
        self.indexes.moves.of_tank(first_tank(&plan))
    }

    #[inline(always)]
    fn calculated_at(&self, pair: &Named) -> Option<Result<Quantities, ChainRule>> {
        match self.indexes.figures.on(pair) {
            Some(figures) => Some(Ok(figures)),
            None => self.past.calculated_at(pair),
        }
    }

    #[inline(always)]
    fn used_reading(&self, tank: u16) -> Option<u32> {
        self.indexes.states.of_tank(tank).used
    }

    #[inline(always)]
    fn last_reading(&self, tank: u16) -> Option<u32> {
        self.indexes.states.of_tank(tank).reading
    }

    #[inline(always)]
    fn last_sample(&self, tank: u16) -> Option<u32> {
        self.indexes.states.of_tank(tank).sample
    }

    #[inline(always)]
    fn last_settlement(&self, tank: u16) -> Option<u32> {
        self.indexes.states.of_tank(tank).settled
    }

    #[inline(always)]
    fn reversal_of(&self, ticket: u32) -> Option<u32> {
        self.indexes.notes.reversal_of(ticket)
    }

    #[tactic(auto, unfolding(farm_history::specs::Tickets::ticket_at))]
    #[inline(always)]
    fn ticket_at(&self, place: u32) -> Option<Ticket> {
        let number = self.indexes.notes.number_at(place)?;
        self.past.ticket_numbered(place, number)
    }

    #[tactic(auto, unfolding(farm_history::specs::Tickets::ticket_at, farm_history::specs::Tickets::closing_ticket))]
    #[inline(always)]
    fn closing_ticket(&self, place: u32) -> Option<Ticket> {
        let entry = self.past.entry_at(place)?;
        match &entry.cmd {
            Command::Closing { .. } => self.ticket_at(place),
            _ => None,
        }
    }

    #[inline(always)]
    fn gain_at(&self, place: u32) -> Option<Amount> {
        self.indexes.notes.gain_at(place)
    }

    #[inline(always)]
    fn book_of(&self, tank: u16) -> Option<Amount> {
        self.indexes.ledger.book_of(tank)
    }

    #[inline(always)]
    fn total(&self) -> Amount {
        self.indexes.ledger.total()
    }
}

// The first tank of a plan.
fn first_tank(plan: &Plan) -> u16
    ensures named { IsTrue (names_tank result plan.now) }
{
    match plan {
        Plan::Outside { tank, .. } => *tank,
        Plan::Transfer { from, .. } => *from,
    }
}
