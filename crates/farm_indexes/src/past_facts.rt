//! The facts of a past, each computed from the whole list of its entries: the plain program.

ghost use Rattle.std.specs.Prelude.{◌≡◌};

use crate::PastFacts;
use farm_fixed::{Amount, ChainRule, Quantities};
use farm_history::{Named, Plan};
use farm_movement::OpenMove;
use farm_ticket::Ticket;
use history_lookups::Past;

impl PastFacts for Past<'_> {
    ghost history = { λ past. past };

    fn past(&self) -> Past<'_> {
        Past {
            site: self.site,
            entries: self.entries,
        }
    }

    fn place_of(&self, account: u32, key: u64) -> Option<u32> {
        for (index, entry) in self.entries.iter().enumerate() {
            if entry.account == account && entry.key == key {
                return Some(index as u32 + 1);
            }
        }
        None
    }

    fn holding_movement(&self, tank: u16) -> Option<u32> {
        self.holding_movement(tank)
    }

    fn open_movement(&self, place: u32) -> Option<Plan> {
        self.open_movement(place)
    }

    fn movement_at(&self, place: u32) -> Option<OpenMove> {
        let plan = self.open_movement(place)?;
        self.movement_of(place, &plan)
    }

    fn calculated_at(&self, pair: &Named) -> Option<Result<Quantities, ChainRule>> {
        self.calculated_at(pair)
    }

    fn used_reading(&self, tank: u16) -> Option<u32> {
        self.used_reading(tank)
    }

    fn last_reading(&self, tank: u16) -> Option<u32> {
        self.last_reading(tank)
    }

    fn last_sample(&self, tank: u16) -> Option<u32> {
        self.last_sample(tank)
    }

    fn last_settlement(&self, tank: u16) -> Option<u32> {
        self.last_settlement(tank)
    }

    fn reversal_of(&self, ticket: u32) -> Option<u32> {
        self.reversal_of(ticket)
    }

    fn ticket_at(&self, place: u32) -> Option<Ticket> {
        self.ticket_at(place)
    }

    fn closing_ticket(&self, place: u32) -> Option<Ticket> {
        self.closing_ticket(place)
    }

    fn gain_at(&self, place: u32) -> Option<Amount> {
        self.gain_at(place)
    }

    fn book_of(&self, tank: u16) -> Option<Amount> {
        self.book_of(tank)
    }

    fn total(&self) -> Amount {
        self.total()
    }
}
