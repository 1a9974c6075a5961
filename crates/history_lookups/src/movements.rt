//! Movements among entries: which are open, which of them holds a tank, which reading was used last for one, and where a ticket was
//! reversed.

ghost use Rattle.std.specs.Prelude.{◌≡◌};
ghost use Rattle.std.specs.List.{list_any};
ghost use Rattle.farm_base.specs.Steps.{or_else};
ghost use Rattle.history_lookups.specs.Pasts.{IsReadable};
ghost use Rattle.farm_history.specs.Commands.{ends, names_tank, opens_on, plan_of, reverses};
ghost use Rattle.farm_history.specs.Movements.{holding_movement, is_end_of, open_movement, opened_at, reading_for, reversal_of, used_by, used_reading};

use crate::Past;
use farm_history::{Command, Entry, Gauged, Plan};

impl Past<'_> {
    /// The plan of the Opening at a place. `None` exactly where no Opening stands there.
    #[tactic(auto, unfolding(farm_history::specs::Movements::opened_at))]
    #[inline(always)]
    pub fn opened_at(&self, place: u32) -> Option<Plan>
        ensures opened { result ≡ opened_at self.now place }
    {
        let entry = self.entry_at(place)?;
        plan_of(&entry.cmd)
    }

    /// The plan of the movement that is open at a place. `None` exactly where no Opening stands there, or a later entry closes or cancels
    /// its movement.
    #[tactic(auto, unfolding(farm_history::specs::Movements::open_movement))]
    pub fn open_movement(&self, place: u32) -> Option<Plan>
        ensures open { result ≡ open_movement self.now place }
    {
        let plan = self.opened_at(place)?;
        if is_ended(place, &self.entries[place as usize..]) {
            return None;
        }
        Some(plan)
    }

    /// The place of the first movement that is open and names a tank. `None` exactly where no open movement names it.
    ///
    /// Where no tank is named by two open movements, each entry is looked at twice at most.
    #[tactic(auto, unfolding(farm_history::specs::Movements::holding_movement))]
    pub fn holding_movement(&self, tank: u16) -> Option<u32>
        requires readable { IsReadable self.now }
        ensures holding { result ≡ holding_movement self.now tank }
    {
        for (index, entry) in self.entries.iter().enumerate() {
            let place = index as u32 + 1;
            if opens_on(tank, &entry.cmd) && !is_ended(place, &self.entries[index + 1..]) {
                return Some(place);
            }
        }
        None
    }

    /// The place of the reading that the last Closing or Settle of a tank used for it. `None` exactly where there is no such entry.
    #[tactic(auto, unfolding(farm_history::specs::Movements::used_reading))]
    pub fn used_reading(&self, tank: u16) -> Option<u32>
        ensures used { result ≡ used_reading self.now tank }
    {
        let mut used = None;
        for entry in self.entries {
            used = latest(used, self.used_by(tank, &entry.cmd));
        }
        used
    }

    /// The reading that a command used for a tank. `None` if it used none.
    pub fn used_by(&self, tank: u16, command: &Command) -> Option<u32>
        ensures used { result ≡ used_by self.now tank command.now }
    {
        match command {
            Command::Closing {
                movement,
                first,
                second,
            } => {
                let plan = self.opened_at(*movement)?;
                reading_for(tank, first, second, &plan)
            }
            Command::Settle {
                tank: number,
                gauged,
            } if *number == tank => Some(gauged.reading),
            _ => None,
        }
    }

    /// The place of the Reverse that names a ticket. `None` exactly where none does.
    #[tactic(auto, unfolding(farm_history::specs::Movements::reversal_of))]
    pub fn reversal_of(&self, ticket: u32) -> Option<u32>
        requires readable { IsReadable self.now }
        ensures reversal { result ≡ reversal_of self.now ticket }
    {
        for (index, entry) in self.entries.iter().enumerate() {
            if reverses(ticket, &entry.cmd) {
                return Some(index as u32 + 1);
            }
        }
        None
    }
}

// The reading that was used last: the one here, or the one before.
fn latest(before: Option<u32>, here: Option<u32>) -> Option<u32>
    ensures latest { result ≡ or_else here before }
{
    match here {
        Some(reading) => Some(reading),
        None => before,
    }
}

// The plan of an Opening.
#[inline(always)]
fn plan_of(command: &Command) -> Option<Plan>
    ensures plan { result ≡ plan_of command.now }
{
    match command {
        Command::Opening(plan) => Some(*plan),
        _ => None,
    }
}

// Whether an entry closes or cancels a movement.
fn is_ended(movement: u32, entries: &[Entry]) -> bool
    ensures ended { result ≡ list_any (is_end_of movement) entries.now }
{
    for entry in entries {
        if ends(movement, &entry.cmd) {
            return true;
        }
    }
    false
}

/// Whether a command closes or cancels a movement.
pub fn ends(movement: u32, command: &Command) -> bool
    ensures ends { result ≡ ends movement command.now }
{
    match command {
        Command::Closing {
            movement: named,
            ..
        }
        | Command::Cancel { movement: named } => *named == movement,
        _ => false,
    }
}

/// Whether a command opens a movement that names a tank.
pub fn opens_on(tank: u16, command: &Command) -> bool
    ensures opens { result ≡ opens_on tank command.now }
{
    match command {
        Command::Opening(plan) => names_tank(tank, plan),
        _ => false,
    }
}

// Whether a plan names a tank.
fn names_tank(tank: u16, plan: &Plan) -> bool
    ensures names { result ≡ names_tank tank plan.now }
{
    match plan {
        Plan::Outside { tank: number, .. } => *number == tank,
        Plan::Transfer { from, to, .. } => *from == tank || *to == tank,
    }
}

// The reading that a Closing names for a tank of its movement's plan.
fn reading_for(tank: u16, first: &Gauged, second: &Option<Gauged>, plan: &Plan) -> Option<u32>
    ensures reading { result ≡ reading_for tank first.now second.now plan.now }
{
    match plan {
        Plan::Outside { tank: number, .. } if *number == tank => Some(first.reading),
        Plan::Transfer { from, .. } if *from == tank => Some(first.reading),
        Plan::Transfer { to, .. } if *to == tank => second.as_ref().map(|gauged| gauged.reading),
        _ => None,
    }
}

// Whether a command reverses a ticket.
fn reverses(ticket: u32, command: &Command) -> bool
    ensures reverses { result ≡ reverses ticket command.now }
{
    match command {
        Command::Reverse { ticket: named } => *named == ticket,
        _ => false,
    }
}
