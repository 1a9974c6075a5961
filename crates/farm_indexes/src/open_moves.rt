//! The movements that are open, with the figures that they were opened on.

ghost use Rattle.std.specs.Prelude.{◌≡◌, IfOk, IfSome, map, option_map};
ghost use Rattle.farm_chain.specs.Volumes.{AreInRange};
ghost use Rattle.farm_history.specs.History.{History, empty_history, with_entry};
ghost use Rattle.farm_indexes.specs.Figured.{AreFiguresOf};
ghost use Rattle.farm_indexes.specs.Following.{MayFollow};
ghost use Rattle.farm_indexes.specs.OpenMoves.{AreMovesOf, kept_after, leg_on, move_in, no_move, opened_on};
ghost use Rattle.farm_site.specs.Sites.{described};
ghost use Rattle.farm_site.specs.declared.items.Tank.{Tank};
ghost use Rattle.history_lookups.specs.Bounds.{IsOpenedInRange};
ghost use Rattle.history_lookups.specs.Pasts.{IsReadable};

use crate::Figured;
use farm_base::NoMemory;
use farm_fixed::Quantities;
use farm_history::{Command, Entry, Gauged, Plan};
use farm_movement::{Leg, OpenMove};
use farm_site::{Site, Tank};
use farm_ticket::Way;
use history_lookups::{Past, opens_on};
use std::alloc::{AllocError, Global};
use std::marker::Model;

/// A tank, and the movement that was opened on it last.
#[derive(Clone, Copy, Debug, PartialEq, Eq)]
pub struct TankMove {
    /// The number of the tank.
    pub tank: u16,
    /// The movement, with the figures that it was opened on. `None` if none was opened. It may have ended.
    pub movement: Option<OpenMove>,
}

/// The movements that were opened last on the tanks of a site, in the order of the tanks. In a clause it is the list of them.
#[derive(Drop)]
pub struct OpenMoves {
    moves: Vec<TankMove>,
}

impl Model for OpenMoves {
    ghost use Rattle.std.specs.Prelude.{List};
    ghost use Rattle.farm_indexes.specs.declared.open_moves.TankMove.{TankMove};

    ghost Value = { List TankMove };

    ghost view = { λ moves. moves.moves.items };
}

impl OpenMoves {
    /// The movements of a site's tanks before the first entry: none.
    pub fn new(alloc: Global, site: &Site) -> Result<OpenMoves, NoMemory>
        ensures moves { IfOk result (AreMovesOf (empty_history (described site.now))) }
    {
        let moves = no_moves(alloc, site.tanks.get())?;
        Ok(OpenMoves { moves })
    }

    /// The movement that was opened last on a tank. `None` if none was, and for a tank that the site doesn't have.
    #[inline(always)]
    pub fn of_tank(&self, tank: u16) -> Option<OpenMove>
        ensures movement { result ≡ move_in tank self.now }
    {
        move_in(&self.moves, tank)
    }

    /// Takes an entry in that comes next after a past, on the figures that it names. It takes no memory.
    #[inline(always)]
    pub fn enter(&mut self, past: &Past<'_>, entry: &Entry, figured: &Figured)
        requires follows { MayFollow past.now entry.now }
        requires readable { IsReadable past.now }
        requires figures { AreFiguresOf past.now entry.now.cmd figured.now }
        requires moves { AreMovesOf past.now self.old }
        ensures moves { AreMovesOf (with_entry past.now entry.now) self.new }
    {
        let Command::Opening(plan) = &entry.cmd else {
            return;
        };
        let movement = opened_on(past.entries.len() as u32 + 1, plan, figured);
        keep(&mut self.moves, &entry.cmd, &movement);
    }
}

// Keeps a movement for each tank on which a command opens it.
#[inline(always)]
fn keep(moves: &mut [TankMove], command: &Command, movement: &Option<OpenMove>)
    ensures moves { moves.new ≡ map (kept_after command.now movement.now) moves.old }
{
    for kept in moves.iter_mut() {
        if opens_on(kept.tank, command) {
            kept.movement = *movement;
        }
    }
}

// A tank on which no movement was opened.
fn no_move(tank: u16) -> TankMove
    ensures kept { result ≡ no_move tank }
{
    TankMove {
        tank,
        movement: None,
    }
}

// Tanks on which no movement was opened.
fn no_moves(alloc: Global, tanks: &[Tank]) -> Result<Vec<TankMove>, AllocError>
    ensures moves { IfOk result (λ moves. moves.items ≡ map (λ (tank : Tank). no_move tank.number) tanks.now) }
{
    tanks.iter().map(|tank| no_move(tank.number)).collect(alloc)
}

// The movement of the first of these that is of a tank.
#[inline(always)]
fn move_in(moves: &[TankMove], tank: u16) -> Option<OpenMove>
    ensures movement { result ≡ move_in tank moves.now }
{
    for kept in moves {
        if kept.tank == tank {
            return kept.movement;
        }
    }
    None
}

// The movement that a plan opens at a place on these figures. `None` if a figure is missing.
#[inline(always)]
fn opened_on(place: u32, plan: &Plan, figured: &Figured) -> Option<OpenMove>
    ensures movement { result ≡ opened_on place plan.now figured.now.first figured.now.second }
{
    let first = figured.first?;
    match plan {
        Plan::Outside {
            way,
            tank,
            party,
            gauged,
        } => Some(OpenMove::new(place, *party, leg_on(*way, *tank, gauged, first), None)),
        Plan::Transfer {
            from,
            to,
            from_gauged,
            to_gauged,
        } => {
            let leg = leg_on(Way::Outward, *from, from_gauged, first);
            let other = leg_on(Way::Inward, *to, to_gauged, figured.second?);
            Some(OpenMove::new(place, 0, leg, Some(other)))
        }
    }
}

// A side of a movement at its opening, on these figures.
#[inline(always)]
fn leg_on(way: Way, tank: u16, gauged: &Gauged, opening: Quantities) -> Leg
    ensures leg { result ≡ leg_on way tank gauged.now opening }
{
    Leg {
        tank,
        way,
        reading: gauged.reading,
        sample: gauged.sample,
        opening,
    }
}
