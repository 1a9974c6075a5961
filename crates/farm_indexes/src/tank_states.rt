//! What is kept of each tank of a site.

ghost use Rattle.std.specs.Prelude.{◌≡◌, IfOk, map};
ghost use Rattle.farm_history.specs.History.{History, empty_history, with_entry};
ghost use Rattle.farm_indexes.specs.Following.{MayFollow};
ghost use Rattle.farm_indexes.specs.TankStates.{AreStatesOf, concerns, held_after, last_after, no_state, state_after, state_in, state_of, unless_ended};
ghost use Rattle.farm_site.specs.Sites.{described};
ghost use Rattle.farm_site.specs.declared.items.Tank.{Tank};
ghost use Rattle.history_lookups.specs.Pasts.{IsReadable};

use farm_base::NoMemory;
use farm_history::{Command, Entry};
use farm_site::{Site, Tank};
use history_lookups::{Past, ends, is_gauging_of, is_sample_of, opens_on, settles};
use std::alloc::{AllocError, Global};
use std::marker::Model;

/// What entries say of a tank: the places of some of them, `None` if there is no such entry.
#[derive(Clone, Copy, Debug, PartialEq, Eq)]
pub struct TankState {
    /// The number of the tank.
    pub tank: u16,
    /// The Opening of the open movement that names it.
    pub held_by: Option<u32>,
    /// Its last gauge's reading or dip.
    pub reading: Option<u32>,
    /// Its last sample.
    pub sample: Option<u32>,
    /// The reading that its last Closing or Settle used.
    pub used: Option<u32>,
    /// Its last Settle.
    pub settled: Option<u32>,
}

/// The states of the tanks of a site, in the order of the tanks. In a clause it is the list of them.
#[derive(Drop)]
pub struct TankStates {
    states: Vec<TankState>,
}

impl Model for TankStates {
    ghost use Rattle.std.specs.Prelude.{List};
    ghost use Rattle.farm_indexes.specs.declared.tank_states.TankState.{TankState};

    ghost Value = { List TankState };

    ghost view = { λ states. states.states.items };
}

impl TankStates {
    /// The states of a site's tanks before the first entry: nothing was recorded of any.
    pub fn new(alloc: Global, site: &Site) -> Result<TankStates, NoMemory>
        ensures states { IfOk result (AreStatesOf (empty_history (described site.now))) }
    {
        let states = blank_states(alloc, site.tanks.get())?;
        Ok(TankStates { states })
    }

    /// The state of a tank. Of a tank that the site doesn't have nothing was recorded.
    pub fn of_tank(&self, tank: u16) -> TankState
        ensures state { (history : History) → AreStatesOf history self.now → result ≡ state_of history tank }
    {
        state_in(&self.states, tank)
    }

    /// Takes an entry in that comes next after a past. It takes no memory.
    pub fn enter(&mut self, past: &Past<'_>, entry: &Entry)
        requires follows { MayFollow past.now entry.now }
        requires readable { IsReadable past.now }
        requires states { AreStatesOf past.now self.old }
        ensures states { AreStatesOf (with_entry past.now entry.now) self.new }
    {
        for state in self.states.iter_mut() {
            if concerns(state, &entry.cmd) {
                *state = state_after(past, entry, *state);
            }
        }
    }
}

// Whether a command may change the state of a tank: it names the tank, or the movement that holds it.
fn concerns(state: &TankState, command: &Command) -> bool
    ensures concerns { result ≡ concerns state.now command.now }
{
    match command {
        Command::Gauge { tank: number, .. }
        | Command::Dip { tank: number, .. }
        | Command::Sample { tank: number, .. }
        | Command::Settle { tank: number, .. } => *number == state.tank,
        Command::Opening(_) => opens_on(state.tank, command),
        Command::Closing { movement, .. } | Command::Cancel { movement } => {
            state.held_by == Some(*movement)
        }
        Command::Reverse { .. } | Command::Stop => false,
    }
}

// The state of a tank of which nothing was recorded.
fn blank(tank: u16) -> TankState
    ensures state { result ≡ no_state tank }
{
    TankState {
        tank,
        held_by: None,
        reading: None,
        sample: None,
        used: None,
        settled: None,
    }
}

// The states of tanks of which nothing was recorded.
fn blank_states(alloc: Global, tanks: &[Tank]) -> Result<Vec<TankState>, AllocError>
    ensures states { IfOk result (λ states. states.items ≡ map (λ (tank : Tank). no_state tank.number) tanks.now) }
{
    tanks.iter().map(|tank| blank(tank.number)).collect(alloc)
}

// The first of these states that is of a tank. Of any other tank nothing was recorded.
fn state_in(states: &[TankState], tank: u16) -> TankState
    ensures state { result ≡ state_in tank states.now }
{
    for state in states {
        if state.tank == tank {
            return *state;
        }
    }
    blank(tank)
}

// The state of a tank after an entry that follows a past.
#[tactic(auto, unfolding(crate::specs::TankStates::state_after))]
#[inline(always)]
fn state_after(past: &Past<'_>, entry: &Entry, state: TankState) -> TankState
    requires readable { IsReadable past.now }
    ensures state { result ≡ state_after past.now entry.now state }
{
    let place = past.entries.len() as u32 + 1;
    let command = &entry.cmd;
    let tank = state.tank;
    TankState {
        tank,
        held_by: held_after(place, tank, command, state.held_by),
        reading: last_after(is_gauging_of(tank, command), place, state.reading),
        sample: last_after(is_sample_of(tank, command), place, state.sample),
        used: past.used_by(tank, command).or(state.used),
        settled: last_after(settles(tank, command), place, state.settled),
    }
}

// The place of the last entry that passes a test, with an entry more.
fn last_after(passes: bool, place: u32, last: Option<u32>) -> Option<u32>
    ensures last { result ≡ last_after passes place last }
{
    if passes { Some(place) } else { last }
}

// The movement that holds a tank after a command at a place.
fn held_after(place: u32, tank: u16, command: &Command, held: Option<u32>) -> Option<u32>
    ensures held { result ≡ held_after place tank command.now held }
{
    if opens_on(tank, command) {
        Some(place)
    } else {
        unless_ended(command, held)
    }
}

// The movement that held a tank, unless a command ends it.
fn unless_ended(command: &Command, held: Option<u32>) -> Option<u32>
    ensures held { result ≡ unless_ended command.now held }
{
    match held {
        Some(movement) if ends(movement, command) => None,
        _ => held,
    }
}
