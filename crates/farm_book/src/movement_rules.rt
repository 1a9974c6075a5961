//! The rules on movements and tickets, in the order of their numbers. Each is a function that fails with the rule if the command
//! breaks it. Rules 13 to 19 stand in `named_rules` and `figure_rules`.

ghost use Rattle.std.specs.Prelude.{◌≡◌, option_and_then};
ghost use Rattle.farm_book.specs.Calculated.{AreCalculatedOn};
ghost use Rattle.farm_book.specs.Judging.{fault_of};
ghost use Rattle.history_lookups.specs.Pasts.{IsReadable};
ghost use Rattle.farm_history.specs.Commands.{tanks_needed};
ghost use Rattle.farm_history.specs.Given.{first_given};
ghost use Rattle.farm_history.specs.MovementRules.{already_reversed, is_closing, movement_named, no_movement, other_product, same_tank, settled, settled_after, settled_later, tank_busy, unknown_party, unknown_ticket};
ghost use Rattle.farm_history.specs.Movements.{holding_movement};
ghost use Rattle.farm_history.specs.Rules.{broken_by_movement, broken_by_ticket};
ghost use Rattle.farm_history.specs.Tickets.{closing_ticket};

use crate::calculated::Calculated;
use crate::named_rules::judge_names;
use farm_history::{Command, Plan, Rule};
use farm_indexes::PastFacts;
use farm_site::item_numbered;
use farm_ticket::Ticket;
use history_lookups::Past;

/// The first rule on movements and tickets that a command breaks.
#[tactic(auto, unfolding(farm_history::specs::Rules::broken_by_movement))]
pub(crate) fn judge_movement<F: PastFacts>(
    facts: &F,
    command: &Command,
    calculated: &Calculated,
) -> Result<(), Rule>
    requires readable { IsReadable (F.history facts.now) }
    requires calculated { AreCalculatedOn (F.history facts.now) command.now calculated.now }
    ensures broken { fault_of result ≡ broken_by_movement (F.history facts.now) command.now }
{
    same_tank(command)?;
    other_product(&facts.past(), command)?;
    tank_busy(facts, command)?;
    no_movement(facts, command)?;
    judge_names(facts, command, calculated)?;
    judge_ticket(facts, command)
}

// The rules on the ticket that a Reverse names, 20 and 21: the first that is broken.
#[tactic(auto, unfolding(farm_history::specs::Rules::broken_by_ticket))]
fn judge_ticket<F: PastFacts>(facts: &F, command: &Command) -> Result<(), Rule>
    requires readable { IsReadable (F.history facts.now) }
    ensures broken { fault_of result ≡ broken_by_ticket (F.history facts.now) command.now }
{
    unknown_ticket(&facts.past(), command)?;
    already_reversed(facts, command)?;
    settled(facts, command)
}

/// Rule 4: the party of a receipt or a delivery isn't of the site.
#[tactic(auto, unfolding(farm_history::specs::MovementRules::unknown_party))]
pub(crate) fn unknown_party(past: &Past<'_>, command: &Command) -> Result<(), Rule>
    ensures rule { fault_of result ≡ unknown_party past.now command.now }
{
    let Command::Opening(Plan::Outside { party, .. }) = command else {
        return Ok(());
    };
    match item_numbered(*party, past.site.parties.get()) {
        Some(_) => Ok(()),
        None => Err(Rule::UnknownParty),
    }
}

// Rule 9: a transfer gives one tank twice.
#[tactic(auto, unfolding(farm_history::specs::MovementRules::same_tank))]
fn same_tank(command: &Command) -> Result<(), Rule>
    ensures rule { fault_of result ≡ same_tank command.now }
{
    match command {
        Command::Opening(Plan::Transfer { from, to, .. }) if *from == *to => Err(Rule::SameTank),
        _ => Ok(()),
    }
}

// Rule 10: the two tanks of a transfer hold different products.
#[tactic(auto, unfolding(farm_history::specs::MovementRules::other_product, farm_history::specs::History::tank_after))]
fn other_product(past: &Past<'_>, command: &Command) -> Result<(), Rule>
    ensures rule { fault_of result ≡ other_product past.now command.now }
{
    let Command::Opening(Plan::Transfer { from, to, .. }) = command else {
        return Ok(());
    };
    match (past.site.tank(*from), past.site.tank(*to)) {
        (Some(tank), Some(other)) if tank.product != other.product => Err(Rule::OtherProduct),
        _ => Ok(()),
    }
}

// Rule 11: a tank of an Opening or a Settle is named by an open movement.
#[tactic(auto, unfolding(farm_history::specs::MovementRules::tank_busy))]
fn tank_busy<F: PastFacts>(facts: &F, command: &Command) -> Result<(), Rule>
    requires readable { IsReadable (F.history facts.now) }
    ensures rule { fault_of result ≡ tank_busy (F.history facts.now) command.now }
{
    match holding(facts, command) {
        Some(place) => Err(Rule::TankBusy(place)),
        None => Ok(()),
    }
}

// The place of the movement that holds a tank which a command needs free, the first tank's first.
fn holding<F: PastFacts>(facts: &F, command: &Command) -> Option<u32>
    requires readable { IsReadable (F.history facts.now) }
    ensures holding { result ≡ first_given (holding_movement (F.history facts.now)) (tanks_needed command.now) }
{
    match command {
        Command::Opening(Plan::Outside { tank, .. }) | Command::Settle { tank, .. } => {
            facts.holding_movement(*tank)
        }
        Command::Opening(Plan::Transfer { from, to, .. }) => match facts.holding_movement(*from) {
            Some(place) => Some(place),
            None => facts.holding_movement(*to),
        },
        _ => None,
    }
}

// Rule 12: the movement of a Closing or a Cancel isn't the place of an open movement.
#[tactic(auto, unfolding(farm_history::specs::MovementRules::no_movement))]
fn no_movement<F: PastFacts>(facts: &F, command: &Command) -> Result<(), Rule>
    ensures rule { fault_of result ≡ no_movement (F.history facts.now) command.now }
{
    let Some(movement) = movement_named(command) else {
        return Ok(());
    };
    match facts.open_movement(movement) {
        Some(_) => Ok(()),
        None => Err(Rule::NoMovement),
    }
}

// The movement that a Closing or a Cancel names.
fn movement_named(command: &Command) -> Option<u32>
    ensures named { result ≡ movement_named command.now }
{
    match command {
        Command::Closing { movement, .. } | Command::Cancel { movement } => Some(*movement),
        _ => None,
    }
}

// Rule 20: the ticket of a Reverse isn't a Closing.
#[tactic(auto, unfolding(farm_history::specs::MovementRules::unknown_ticket))]
fn unknown_ticket(past: &Past<'_>, command: &Command) -> Result<(), Rule>
    ensures rule { fault_of result ≡ unknown_ticket past.now command.now }
{
    let Command::Reverse { ticket } = command else {
        return Ok(());
    };
    match past.entry_at(*ticket) {
        Some(entry) if is_closing(&entry.cmd) => Ok(()),
        _ => Err(Rule::UnknownTicket),
    }
}

// Whether a command is a Closing.
fn is_closing(command: &Command) -> bool
    ensures closing { result ≡ is_closing command.now }
{
    matches!(command, Command::Closing { .. })
}

// Rule 21, its first part: a Reverse names the ticket already.
#[tactic(auto, unfolding(farm_history::specs::MovementRules::already_reversed))]
fn already_reversed<F: PastFacts>(facts: &F, command: &Command) -> Result<(), Rule>
    requires readable { IsReadable (F.history facts.now) }
    ensures rule { fault_of result ≡ already_reversed (F.history facts.now) command.now }
{
    let Command::Reverse { ticket } = command else {
        return Ok(());
    };
    match facts.reversal_of(*ticket) {
        Some(place) => Err(Rule::AlreadyReversed(place)),
        None => Ok(()),
    }
}

// Rule 21, its second part: the last Settle of a tank of the ticket is later than the ticket.
#[tactic(auto, unfolding(farm_history::specs::MovementRules::settled))]
fn settled<F: PastFacts>(facts: &F, command: &Command) -> Result<(), Rule>
    requires readable { IsReadable (F.history facts.now) }
    ensures rule { fault_of result ≡ settled (F.history facts.now) command.now }
{
    let Command::Reverse { ticket: place } = command else {
        return Ok(());
    };
    match settlement_after(facts, *place) {
        Some(settle) => Err(Rule::Settled(settle)),
        None => Ok(()),
    }
}

// The place of the last Settle of a tank of the ticket at a place, where it is later than the ticket.
fn settlement_after<F: PastFacts>(facts: &F, place: u32) -> Option<u32>
    requires readable { IsReadable (F.history facts.now) }
    ensures settled { result ≡ option_and_then (settled_after (F.history facts.now) place) (closing_ticket (F.history facts.now) place) }
{
    let ticket = facts.closing_ticket(place)?;
    settled_after(facts, place, &ticket)
}

// The place of the last Settle of a tank of a ticket, where it is later than the ticket, the first tank first.
fn settled_after<F: PastFacts>(facts: &F, place: u32, ticket: &Ticket) -> Option<u32>
    requires readable { IsReadable (F.history facts.now) }
    ensures settled { result ≡ settled_after (F.history facts.now) place ticket.now }
{
    if let Some(settle) = settled_later(place, facts.last_settlement(ticket.first.tank)) {
        return Some(settle);
    }
    let second = ticket.second.as_ref()?;
    settled_later(place, facts.last_settlement(second.tank))
}

// The place of a Settle, where it is later than a ticket.
fn settled_later(ticket: u32, settle: Option<u32>) -> Option<u32>
    ensures settled_later { result ≡ settled_later ticket settle }
{
    match settle {
        Some(place) if ticket < place => Some(place),
        _ => None,
    }
}
