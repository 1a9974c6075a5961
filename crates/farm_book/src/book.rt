//! A book: it judges an entry by the history that it keeps, makes room for it, and takes it in.

ghost use Rattle.std.specs.Prelude.{◌≡◌, ◌+◌, ◌≤◌, ℕ, All, IfOk, IfSome, IsFalse, IsOk, IsTrue, OnErr, OnOk, option_map};
ghost use Rattle.farm_stock.specs.Books.{plus};
ghost use Rattle.farm_stock.specs.Postings.{amount_of, at_tank};
ghost use Rattle.farm_book.specs.Kept.{IsSound};
ghost use Rattle.farm_book.specs.Replies.{IsGainReply, IsTicketReply, IssuesAt, SettlesAt};
ghost use Rattle.farm_indexes.specs.Figured.{AreFiguresOf};
ghost use Rattle.farm_indexes.specs.Issuing.{IsPostedBy};
ghost use Rattle.history_lookups.specs.Bounds.{IsSmallTicket};
ghost use Rattle.history_lookups.specs.Pasts.{IsReadable};
ghost use Rattle.farm_history.specs.Commands.{is_settle, issues_ticket};
ghost use Rattle.farm_history.specs.Conservation.{Moves};
ghost use Rattle.farm_history.specs.Desk.{reply_at};
ghost use Rattle.farm_history.specs.History.{IsMoment, IsWellFormed, empty_history, last_moment, last_place, with_entry};
ghost use Rattle.farm_history.specs.Postings.{postings_at};
ghost use Rattle.farm_history.specs.Rules.{has_same_key};
ghost use Rattle.farm_history.specs.Sites.{AreRising};
ghost use Rattle.farm_history.specs.Stocks.{book_of, total_of};
ghost use Rattle.farm_history.specs.MovementRules.{is_closing};
ghost use Rattle.farm_history.specs.Tickets.{issued_by, ticket_at};
ghost use Rattle.farm_history.specs.Verdicts.{IsLegal, IsNext, IsVerdict, verdict};
ghost use Rattle.farm_history.specs.declared.limits.TheConstants.{MOST_LIMIT, STOPS_BEYOND_LIMIT};
ghost use Rattle.farm_site.specs.Sites.{described};

use crate::judging::judged;
use crate::tables::table_facts;
use farm_base::NoMemory;
use farm_history::{Entry, Reply, Verdict, history_laws};
use farm_indexes::{Figured, Indexed, Indexes, PastFacts};
use farm_site::Site;
use farm_ticket::Ticket;
use history_lookups::{Past, Posted};
use std::alloc::Global;
use std::marker::Model;

/// A site, and the entries of its history, of which there may be `LIMIT`, and Stops beyond them.
///
/// Its history is legal: each entry was accepted after those before it, and no moment is below the one before.
#[derive(Drop)]
pub struct Book<const LIMIT: usize> {
    site: Site,
    entries: Vec<Entry>,
    // What the rules and look-ups ask of the entries.
    indexes: Indexes,
    // For how many entries more there is room in both.
    room: usize,
}

impl<const LIMIT: usize> Model for Book<LIMIT> {
    ghost use Rattle.std.specs.Prelude.{◌-◌, vec_capacity, vec_len};
    ghost use Rattle.farm_book.specs.Kept.{IsKept, Kept};
    ghost use Rattle.history_lookups.specs.Pasts.{history_of};

    ghost Value = { Kept };

    ghost view = { λ book. record { history = history_of book.site book.entries.items; spare = book.room } };

    ghost invariant = { λ book. IsKept LIMIT (history_of book.site book.entries.items) book.indexes book.room (vec_capacity book.entries - vec_len book.entries) };
}

impl<const LIMIT: usize> Book<LIMIT> {
    /// The book of a site before its first entry.
    pub fn new(alloc: Global, site: Site) -> Result<Self, NoMemory>
        requires limit { LIMIT ≤ MOST_LIMIT }
        ensures history { IfOk result (λ book. book.history ≡ empty_history (described site)) }
    {
        table_facts(&site);
        let indexes = Indexes::new(alloc, &site)?;
        Ok(Book {
            site,
            entries: Vec::new(alloc),
            indexes,
            room: 0,
        })
    }

    /// What the rules say of a further entry: the place of the entry that it repeats, the first rule that it breaks, or that it
    /// is accepted.
    pub fn judge(&self, entry: &Entry) -> Verdict
        requires well_formed { IsWellFormed entry.now }
        ensures verdict { result ≡ verdict LIMIT self.now.history entry.now }
        ensures meaning { IsVerdict LIMIT self.now.history entry.now result }
        ensures repeated { (place : ℕ) → result ≡ Verdict.Repeat place → (1 ≤ place) × (place ≤ last_place self.now.history) }
    {
        history_laws();
        match judged(LIMIT, &self.facts(), entry) {
            Ok(_) => Verdict::Accept,
            Err(verdict) => verdict,
        }
    }

    /// Makes room for one entry more. It fails only where there was no room and no memory for it.
    #[inline(always)]
    pub fn reserve(&mut self) -> Result<(), NoMemory>
        ensures room { OnOk result (1 ≤ self.new.spare) }
        ensures history { self.new.history ≡ self.old.history }
        ensures refused { OnErr result (self.new.spare ≡ self.old.spare) }
        ensures no_room { OnErr result (self.old.spare ≡ 0) }
        ensures limit { LIMIT ≤ MOST_LIMIT }
        ensures few { last_place self.new.history ≤ LIMIT + STOPS_BEYOND_LIMIT }
    {
        if self.room == 0 {
            self.entries.reserve(1)?;
            self.indexes.reserve()?;
            self.room = 1;
        }
        Ok(())
    }

    /// Takes an accepted entry in at the end, and answers the reply for it. It can't fail, and takes no memory.
    pub fn commit(&mut self, entry: Entry) -> Reply
        requires next { IsNext LIMIT self.old.history entry }
        requires room { 1 ≤ self.old.spare }
        ensures entered { self.new.history ≡ with_entry self.old.history entry }
        ensures reply { result ≡ reply_at self.new.history (last_place self.new.history) }
        ensures ticket { IsTrue (issues_ticket entry.cmd) → IsTicketReply self.new.history (last_place self.new.history) result }
        ensures gain { IsTrue (is_settle entry.cmd) → IsGainReply self.new.history (last_place self.new.history) result }
        ensures placed { IsFalse (issues_ticket entry.cmd) → IsFalse (is_settle entry.cmd) → result ≡ Reply.Placed (last_place self.new.history) }
        ensures once { All (λ other. IsFalse (has_same_key entry other)) self.old.history.entries }
        ensures books { (tank : ℕ) → book_of self.new.history tank ≡ option_map (λ book. plus book (amount_of (at_tank tank (postings_at self.new.history (last_place self.new.history))))) (book_of self.old.history tank) }
        ensures total { Moves (postings_at self.new.history (last_place self.new.history)) (total_of self.old.history) (total_of self.new.history) }
        ensures spare { self.new.spare + 1 ≡ self.old.spare }
    {
        let figured = Figured::of(&self.past(), &entry.cmd);
        let ticket = self.issued(&entry, &figured);
        let posted = self.posted_on(&entry, &ticket);
        self.take_in(entry, &figured, &posted);
        self.reply_with(self.entries.len() as u32, ticket)
    }

    // The ticket that an accepted entry issues, on the figures that it names.
    #[inline(always)]
    fn issued(&self, entry: &Entry, figured: &Figured) -> Option<Ticket>
        requires next { IsNext LIMIT self.now.history entry.now }
        requires figures { AreFiguresOf self.now.history entry.now.cmd figured.now }
        ensures ticket { result ≡ issued_by self.now.history (last_place self.now.history + 1) entry.now.cmd }
        ensures entered { result ≡ ticket_at (with_entry self.now.history entry.now) (last_place self.now.history + 1) }
        ensures small { IsTrue (is_closing entry.now.cmd) → IfSome result IsSmallTicket }
    {
        self.indexes.issued(&self.past(), entry, figured)
    }

    // What an accepted entry posts that issues this ticket.
    #[inline(always)]
    fn posted_on(&self, entry: &Entry, ticket: &Option<Ticket>) -> Posted
        requires ticket { ticket.now ≡ issued_by self.now.history (last_place self.now.history + 1) entry.now.cmd }
        requires small { IsTrue (is_closing entry.now.cmd) → IfSome ticket.now IsSmallTicket }
        ensures posted { IsPostedBy self.now.history entry.now.cmd result }
    {
        self.indexes.posted_on(&self.past(), entry, ticket)
    }

    // What an accepted entry posts, on the figures that it names.
    #[inline(always)]
    pub(crate) fn posted(&self, entry: &Entry, figured: &Figured) -> Posted
        requires next { IsNext LIMIT self.now.history entry.now }
        requires figures { AreFiguresOf self.now.history entry.now.cmd figured.now }
        ensures posted { IsPostedBy self.now.history entry.now.cmd result }
    {
        self.indexes.posted(&self.past(), entry, figured)
    }

    // Takes an accepted entry in at the end that posts this, on the figures that it names.
    #[inline(always)]
    pub(crate) fn take_in(&mut self, entry: Entry, figured: &Figured, posted: &Posted)
        requires next { IsNext LIMIT self.old.history entry }
        requires room { 1 ≤ self.old.spare }
        requires figures { AreFiguresOf self.old.history entry.cmd figured.now }
        requires posted { IsPostedBy self.old.history entry.cmd posted.now }
        ensures entered { self.new.history ≡ with_entry self.old.history entry }
        ensures sound { IsSound LIMIT self.new.history }
        ensures rising { AreRising self.old.history.site }
        ensures spare { self.new.spare + 1 ≡ self.old.spare }
    {
        let past = Past {
            site: &self.site,
            entries: &self.entries,
        };
        self.indexes.enter(&past, &entry, figured, posted);
        self.entries.push_reserved(entry);
        self.room -= 1;
    }

    /// The reply for the entry at a place.
    pub fn reply_at(&self, place: u32) -> Reply
        requires low { 1 ≤ place }
        requires high { place ≤ last_place self.now.history }
        ensures reply { result ≡ reply_at self.now.history place }
        ensures ticket { IssuesAt self.now.history place → IsTicketReply self.now.history place result }
        ensures gain { SettlesAt self.now.history place → IsGainReply self.now.history place result }
        ensures placed { ¬ (IssuesAt self.now.history place) → ¬ (SettlesAt self.now.history place) → result ≡ Reply.Placed place }
    {
        self.reply_with(place, self.facts().ticket_at(place))
    }

    // The reply for the entry at a place with this ticket.
    #[tactic(auto, unfolding(farm_history::specs::Desk::reply_at))]
    fn reply_with(&self, place: u32, ticket: Option<Ticket>) -> Reply
        requires ticket { ticket ≡ ticket_at self.now.history place }
        ensures reply { result ≡ reply_at self.now.history place }
    {
        if let Some(ticket) = ticket {
            return Reply::Ticket(ticket);
        }
        match self.facts().gain_at(place) {
            Some(amount) => Reply::Gain { place, amount },
            None => Reply::Placed(place),
        }
    }

    // The facts of the history.
    pub(crate) fn facts(&self) -> Indexed<'_>
        ensures history { result ≡ self.now.history }
        ensures sound { IsSound LIMIT self.now.history }
        ensures readable { IsReadable self.now.history }
        ensures limit { LIMIT ≤ MOST_LIMIT }
    {
        Indexed::new(self.past(), &self.indexes)
    }

    /// The site and the entries, to look among them.
    pub fn past(&self) -> Past<'_>
        ensures history { result ≡ self.now.history }
        ensures sound { IsSound LIMIT self.now.history }
        ensures readable { IsReadable self.now.history }
        ensures limit { LIMIT ≤ MOST_LIMIT }
    {
        Past {
            site: &self.site,
            entries: &self.entries,
        }
    }

    /// The entries, in their order.
    pub fn entries(&self) -> &[Entry]
        ensures entries { result.now ≡ self.now.history.entries }
        ensures legal { IsLegal LIMIT self.now.history }
        ensures few { last_place self.now.history ≤ LIMIT + STOPS_BEYOND_LIMIT }
        ensures limit { LIMIT ≤ MOST_LIMIT }
    {
        &self.entries
    }

    /// The site.
    pub fn site(&self) -> &Site
        ensures site { described result.now ≡ self.now.history.site }
    {
        &self.site
    }

    /// The moment of the last entry, in seconds since 1970-01-01 00:00:00 UTC; 0 where there is no entry.
    pub fn last_moment(&self) -> i64
        ensures moment { result ≡ last_moment self.now.history }
        ensures within { IsMoment result }
    {
        match self.entries.last() {
            Some(entry) => entry.at,
            None => 0,
        }
    }
}
