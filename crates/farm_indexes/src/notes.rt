//! What is kept beside each entry.

ghost use Rattle.std.specs.Prelude.{◌≡◌, ℕ, ◌+◌, ◌≤◌, MatchOption, OnErr, OnOk, length};
ghost use Rattle.farm_history.specs.History.{History, before, empty_history, with_entry};
ghost use Rattle.farm_history.specs.Movements.{reversal_of};
ghost use Rattle.farm_history.specs.Postings.{posted_by, postings_of};
ghost use Rattle.farm_history.specs.Stocks.{gain_at};
ghost use Rattle.farm_indexes.specs.Following.{MayFollow};
ghost use Rattle.farm_history.specs.Tickets.{next_number};
ghost use Rattle.farm_indexes.specs.Notes.{AreMarked, AreNotesOf, HasTicket, new_note, note_at, reversed_at};
ghost use Rattle.farm_site.specs.Described.{Described};
ghost use Rattle.history_lookups.specs.Ledgers.{listed_postings};
ghost use Rattle.history_lookups.specs.Pasts.{IsReadable};

use farm_base::NoMemory;
use farm_fixed::Amount;
use farm_history::{Command, Entry};
use history_lookups::{Past, Posted, issues_ticket};
use std::alloc::Global;
use std::marker::Model;

/// What is kept beside an entry.
#[derive(Clone, Copy, Debug, PartialEq, Eq)]
pub enum Note {
    /// Nothing: it issues no ticket and settles no tank.
    Plain,
    /// The ticket that it issues: its number, and the place of the Reverse that names it, if one does.
    Ticket {
        /// The number of the ticket.
        number: u32,
        /// The place of the Reverse.
        reversed_by: Option<u32>,
    },
    /// The gain of the tank that it settles.
    Gain(Amount),
}

/// A note of each entry of a history, in their order, and the number of the next ticket.
#[derive(Drop)]
pub struct Notes {
    notes: Vec<Note>,
    next_number: u32,
}

impl Model for Notes {
    ghost use Rattle.std.specs.Prelude.{◌-◌, vec_capacity, vec_len};
    ghost use Rattle.farm_indexes.specs.Notes.{Kept};

    ghost Value = { Kept };

    ghost view = { λ notes. record { notes = notes.notes.items; next_number = notes.next_number; room = vec_capacity notes.notes - vec_len notes.notes } };
}

impl Notes {
    /// No notes. Takes no memory.
    pub fn new(alloc: Global) -> Notes
        ensures notes { (site : Described) → AreNotesOf (empty_history site) result }
    {
        Notes {
            notes: Vec::new(alloc),
            next_number: 1,
        }
    }

    /// Makes room for one note more. It fails only if there was no room and no memory for it.
    pub fn reserve(&mut self) -> Result<(), NoMemory>
        ensures notes { self.new.notes ≡ self.old.notes }
        ensures next_number { self.new.next_number ≡ self.old.next_number }
        ensures room { OnOk result (1 ≤ self.new.room) }
        ensures no_room { OnErr result (self.old.room ≡ 0) }
        ensures never_falls { self.old.room ≤ self.new.room }
    {
        self.notes.reserve(1)?;
        Ok(())
    }

    /// Notes an entry that comes next after a past and posts this, and at the ticket that it reverses that it does. It takes no memory.
    pub fn enter(&mut self, past: &Past<'_>, entry: &Entry, posted: &Posted)
        requires follows { MayFollow past.now entry.now }
        requires readable { IsReadable past.now }
        requires posted { listed_postings posted.now ≡ posted_by past.now (postings_of past.now) entry.now.cmd }
        requires notes { AreNotesOf past.now self.old }
        requires room { 1 ≤ self.old.room }
        ensures notes { AreNotesOf (with_entry past.now entry.now) self.new }
        ensures room { self.old.room ≤ self.new.room + 1 }
    {
        self.mark_reversed(&entry.cmd, past.entries.len() as u32 + 1);
        let note = note_of(self.next_number, entry, posted);
        self.notes.push_reserved(note);
        if issues_ticket(&entry.cmd) {
            self.next_number += 1;
        }
    }

    // Notes at the ticket that a command at a place reverses, if it is a Reverse, that it does.
    fn mark_reversed(&mut self, command: &Command, place: u32)
        requires within { (ticket : ℕ) → command.now ≡ Command.Reverse ticket → (1 ≤ ticket) × (ticket ≤ length self.old.notes) }
        ensures marked { AreMarked command.now place self.old.notes self.new.notes }
        ensures next_number { self.new.next_number ≡ self.old.next_number }
        ensures room { self.new.room ≡ self.old.room }
    {
        if let Command::Reverse { ticket } = command {
            let index = *ticket as usize - 1;
            self.notes[index] = reversed(self.notes[index], place);
        }
    }

    /// The number of the next ticket.
    pub fn next_number(&self) -> u32
        ensures number { result ≡ self.now.next_number }
    {
        self.next_number
    }

    /// The number of the ticket of the entry at a place. `None` if and only if no entry that issues a ticket stands there.
    pub fn number_at(&self, place: u32) -> Option<u32>
        ensures number { (history : History) → AreNotesOf history self.now →
            MatchOption result (¬ (HasTicket history place)) (λ number. HasTicket history place × (number ≡ next_number (before history place))) }
    {
        match self.at(place)? {
            Note::Ticket { number, .. } => Some(number),
            _ => None,
        }
    }

    /// The place of the Reverse that names the ticket of a place. `None` if and only if none does.
    pub fn reversal_of(&self, place: u32) -> Option<u32>
        ensures reversal { (history : History) → AreNotesOf history self.now → result ≡ reversal_of history place }
    {
        match self.at(place)? {
            Note::Ticket { reversed_by, .. } => reversed_by,
            _ => None,
        }
    }

    /// The gain of the entry at a place. `None` if and only if no Settle stands there that has a gain.
    pub fn gain_at(&self, place: u32) -> Option<Amount>
        ensures gain { (history : History) → AreNotesOf history self.now → result ≡ gain_at history place }
    {
        match self.at(place)? {
            Note::Gain(gain) => Some(gain),
            _ => None,
        }
    }

    // The note of the entry at a place. `None` if there is no such place.
    fn at(&self, place: u32) -> Option<Note>
        ensures note { result ≡ note_at self.now.notes place }
    {
        if place == 0 {
            return None;
        }
        self.notes.get(place as usize - 1).copied()
    }
}

// The note of a new entry, if the next ticket has this number and the entry posts this.
fn note_of(number: u32, entry: &Entry, posted: &Posted) -> Note
    ensures note { result ≡ new_note number posted.now entry.now.cmd }
{
    match (&entry.cmd, posted) {
        (Command::Closing { .. } | Command::Reverse { .. }, _) => Note::Ticket {
            number,
            reversed_by: None,
        },
        (Command::Settle { .. }, Posted::One(posting)) => Note::Gain(posting.amount),
        _ => Note::Plain,
    }
}

// The note of a ticket that the Reverse at a place names.
fn reversed(note: Note, place: u32) -> Note
    ensures reversed { result ≡ reversed_at place note }
{
    match note {
        Note::Ticket { number, .. } => Note::Ticket {
            number,
            reversed_by: Some(place),
        },
        _ => note,
    }
}
