//! The indexes of a history.

ghost use Rattle.std.specs.Prelude.{◌≡◌, ◌+◌, ◌≤◌, IfOk, IfSome, IsTrue, OnErr, OnOk};
ghost use Rattle.farm_history.specs.History.{History, empty_history, last_place, with_entry};
ghost use Rattle.farm_history.specs.MovementRules.{is_closing};
ghost use Rattle.farm_history.specs.Tickets.{issued_by, ticket_at};
ghost use Rattle.farm_indexes.specs.Figured.{AreFiguresOf};
ghost use Rattle.farm_indexes.specs.Following.{MayFollow};
ghost use Rattle.farm_indexes.specs.Indexing.{AreIndexesOf, room};
ghost use Rattle.farm_indexes.specs.Issuing.{IsPostedBy};
ghost use Rattle.farm_site.specs.Sites.{described};
ghost use Rattle.history_lookups.specs.Bounds.{IsSmallTicket};
ghost use Rattle.history_lookups.specs.Pasts.{IsReadable};

use crate::issuing::{issued_on, posted_on};
use crate::last_figures::LastFigures;
use crate::notes::Notes;
use crate::open_moves::OpenMoves;
use crate::tank_states::TankStates;
use crate::{Figured, Indexed, PastFacts};
use farm_base::NoMemory;
use farm_history::{Command, Entry};
use farm_site::Site;
use farm_ticket::Ticket;
use history_lookups::{Ledger, Past, Posted};
use key_index::KeyIndex;
use std::alloc::Global;

/// What is kept beside the entries of a history, and is what the whole list of them gives.
///
/// Contracts see it by `AreIndexesOf`, which says of which history they are, and `room`, for how many entries more there is memory.
#[derive(Drop)]
pub struct Indexes {
    // Where the account and the key of each entry stand.
    pub(crate) keys: KeyIndex,
    // A note of each entry.
    pub(crate) notes: Notes,
    // What entries say of each tank.
    pub(crate) states: TankStates,
    // The movement that was opened last on each tank.
    pub(crate) moves: OpenMoves,
    // The figures that were calculated last on each tank.
    pub(crate) figures: LastFigures,
    // The book of each tank.
    pub(crate) ledger: Ledger,
}

impl Indexes {
    /// The indexes of a site's history before its first entry.
    pub fn new(alloc: Global, site: &Site) -> Result<Indexes, NoMemory>
        ensures indexes { IfOk result (AreIndexesOf (empty_history (described site.now))) }
    {
        let states = TankStates::new(alloc, site)?;
        let moves = OpenMoves::new(alloc, site)?;
        let figures = LastFigures::new(alloc, site)?;
        Ok(Indexes {
            keys: KeyIndex::new(alloc),
            notes: Notes::new(alloc),
            states,
            moves,
            figures,
            ledger: Ledger::opened(site.tanks.get()),
        })
    }

    /// Makes room for one entry more. It fails only if there was no room and no memory for it. They stay the indexes that they are.
    #[tactic(auto, unfolding(crate::specs::Indexing::room))]
    pub fn reserve(&mut self) -> Result<(), NoMemory>
        ensures indexes { (history : History) → AreIndexesOf history self.old → AreIndexesOf history self.new }
        ensures room { OnOk result (1 ≤ room self.new) }
        ensures no_room { OnErr result (room self.old ≡ 0) }
        ensures never_falls { room self.old ≤ room self.new }
    {
        self.keys.reserve()?;
        self.notes.reserve()?;
        Ok(())
    }

    /// The ticket that an entry issues which comes next after a past, on the figures that it names. `None` for one that is no Closing and no
    /// Reverse.
    #[inline(always)]
    pub fn issued(&self, past: &Past<'_>, entry: &Entry, figured: &Figured) -> Option<Ticket>
        requires follows { MayFollow past.now entry.now }
        requires readable { IsReadable past.now }
        requires figures { AreFiguresOf past.now entry.now.cmd figured.now }
        requires indexes { AreIndexesOf past.now self.now }
        ensures ticket { result ≡ issued_by past.now (last_place past.now + 1) entry.now.cmd }
        ensures entered { result ≡ ticket_at (with_entry past.now entry.now) (last_place past.now + 1) }
        ensures small { IsTrue (is_closing entry.now.cmd) → IfSome result IsSmallTicket }
    {
        let facts = Indexed::new(past.past(), self);
        issued_on(&facts, self.notes.next_number(), entry, figured)
    }

    /// What an entry posts that comes next after a past, on the figures that it names.
    #[inline(always)]
    pub fn posted(&self, past: &Past<'_>, entry: &Entry, figured: &Figured) -> Posted
        requires follows { MayFollow past.now entry.now }
        requires readable { IsReadable past.now }
        requires figures { AreFiguresOf past.now entry.now.cmd figured.now }
        requires indexes { AreIndexesOf past.now self.now }
        ensures posted { IsPostedBy past.now entry.now.cmd result }
    {
        if let Command::Closing { .. } = &entry.cmd {
            return self.posted_on(past, entry, &self.issued(past, entry, figured));
        }
        past.posted_by(&self.ledger, &entry.cmd)
    }

    /// What an entry posts that comes next after a past and issues this ticket.
    #[inline(always)]
    pub fn posted_on(&self, past: &Past<'_>, entry: &Entry, ticket: &Option<Ticket>) -> Posted
        requires readable { IsReadable past.now }
        requires ticket { ticket.now ≡ issued_by past.now (last_place past.now + 1) entry.now.cmd }
        requires small { IsTrue (is_closing entry.now.cmd) → IfSome ticket.now IsSmallTicket }
        requires indexes { AreIndexesOf past.now self.now }
        ensures posted { IsPostedBy past.now entry.now.cmd result }
    {
        posted_on(past, &self.ledger, entry, ticket)
    }

    /// Takes an entry in that comes next after a past and posts this, on the figures that it names. It can't fail, and takes no memory.
    #[tactic(auto, unfolding(crate::specs::Indexing::room))]
    pub fn enter(&mut self, past: &Past<'_>, entry: &Entry, figured: &Figured, posted: &Posted)
        requires follows { MayFollow past.now entry.now }
        requires readable { IsReadable past.now }
        requires figures { AreFiguresOf past.now entry.now.cmd figured.now }
        requires posted { IsPostedBy past.now entry.now.cmd posted.now }
        requires indexes { AreIndexesOf past.now self.old }
        requires room { 1 ≤ room self.old }
        ensures indexes { AreIndexesOf (with_entry past.now entry.now) self.new }
        ensures room { room self.old ≤ room self.new + 1 }
    {
        let place = past.entries.len() as u32 + 1;
        self.keys.enter(entry.account, entry.key, place);
        self.notes.enter(past, entry, posted);
        self.states.enter(past, entry);
        self.moves.enter(past, entry, figured);
        self.figures.enter(past, entry, figured);
        self.ledger.post(posted);
    }
}
