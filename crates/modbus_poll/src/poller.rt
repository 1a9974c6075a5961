//! The poller of a line.

ghost use Rattle.std.specs.Prelude.{◌≡◌, ◌↔◌, ◌<◌, ◌≤◌, false, true, length, IfOk, IsTrue, OnOk};
ghost use Rattle.farm_base.specs.Counts.{Counts, CountsIf};
ghost use Rattle.gauge_maps.specs.declared.map.GaugeMap.{GaugeMap};
ghost use Rattle.modbus_poll.specs.Deadbands.{IsDue, is_due};
ghost use Rattle.gauge_maps.specs.Maps.{is_gauge_map, is_line_map};
ghost use Rattle.modbus_poll.specs.Polls.{Asks, ConnectsFirst, IsGaugeAt, IsLinkFault, IsSound, Polls, fresh, keeps_connection, last_of, number_after, index_after, index_of, with_submitted};

use crate::asking::{exchange, expect_of};
use crate::deadband::is_due;
use crate::polled::{keeps_connection, polled_of};
use crate::{GaugeMap, LineMap, Polled, Raw};
use farm_base::NoMemory;
use farm_ports::{Failed, Link};
use std::alloc::Global;
use std::marker::Model;

/// The poller of a line: it asks the gauges by turns, over one connection that it makes anew after a fault.
///
/// Each request is a transaction of its own, numbered from 1 to 65,535 and then from 0. A fault of the link or a response that is
/// none drops the connection. The poller remembers what was last submitted of each gauge.
#[derive(Debug, Drop)]
pub struct Poller {
    line: LineMap,
    next: usize,
    number: u16,
    connected: bool,
    last: Vec<Option<Raw>>,
}

impl Model for Poller {
    ghost use Rattle.modbus_poll.specs.Polls.{IsSound, PollerState};

    ghost Value = { PollerState };

    ghost view = { λ poller. record { line = poller.line; next = poller.next; number = poller.number; connected = poller.connected; last = poller.last.items } };

    ghost invariant = { λ poller. IsSound (record { line = poller.line; next = poller.next; number = poller.number; connected = poller.connected; last = poller.last.items }) };
}

impl Poller {
    /// A poller of a line, before its first poll.
    pub fn new(alloc: Global, line: LineMap) -> Result<Poller, NoMemory>
        requires line { IsTrue (is_line_map line) }
        ensures begins { IfOk result (λ poller. poller ≡ fresh line) }
    {
        let last = vec![in alloc; None; line.gauges.get().len()]?;
        Ok(Poller {
            line,
            next: 0,
            number: 1,
            connected: false,
            last,
        })
    }

    /// Polls the gauge whose turn it is, and gives the turn to the next one. Takes no memory.
    pub fn turn<L: Link>(&mut self, link: &mut L) -> Polled
        ensures poll { Polls (L.calls link.old) (L.calls link.new) self.old self.new result }
        ensures position { index_of result ≡ self.old.next }
        ensures inside { index_of result < length self.new.line.gauges }
        ensures counts { CountsIf (IsLinkFault result) (L.faults link.old) (L.faults link.new) }
        ensures connected { self.new.connected ≡ keeps_connection result }
        ensures line { self.new.line ≡ self.old.line }
        ensures last { self.new.last ≡ self.old.last }
        ensures next { self.new.next ≡ index_after self.old.next (length self.old.line.gauges) }
        ensures sound { IsSound self.new }
    {
        let (answer, number) = self.ask(link);
        self.next = index_after(self.next, self.line.gauges.get().len());
        self.number = number;
        self.connected = keeps_connection(&answer);
        answer
    }

    /// Whether a reading of the gauge at an index, from 0, is to be submitted.
    pub fn due(&self, gauge: usize, raw: &Raw) -> bool
        requires gauge { gauge < length self.now.line.gauges }
        ensures due { (map : GaugeMap) → IsGaugeAt self.now.line gauge map → result ≡ is_due map (last_of self.now gauge) raw.now }
        ensures meaning { (map : GaugeMap) → IsGaugeAt self.now.line gauge map → (result ≡ true) ↔ IsDue map (last_of self.now gauge) raw.now }
        ensures sound { IsSound self.now }
    {
        is_due(&self.line.gauges.get()[gauge], &self.last[gauge], raw)
    }

    /// Remembers that a reading of the gauge at an index, from 0, was submitted.
    pub fn submitted(&mut self, gauge: usize, raw: Raw)
        requires gauge { gauge < length self.old.line.gauges }
        ensures submitted { self.new ≡ with_submitted self.old gauge raw }
    {
        self.last[gauge] = Some(raw);
    }

    // Asks the gauge whose turn it is; the answer, and the number of the next transaction.
    fn ask<L: Link>(&self, link: &mut L) -> (Polled, u16)
        ensures asks { Asks (L.calls link.old) (L.calls link.new) self.now result }
        ensures counts { CountsIf (IsLinkFault result.0) (L.faults link.old) (L.faults link.new) }
        ensures position { index_of result.0 ≡ self.now.next }
    {
        let gauge = self.gauge();
        if let Err(Failed) = self.connect(link) {
            return (Polled::LinkFault(self.next), self.number);
        }
        let number = number_after(self.number);
        match exchange(link, &expect_of(&gauge, self.number)) {
            Ok(frame) => (polled_of(&gauge, self.next, &frame), number),
            Err(Failed) => (Polled::LinkFault(self.next), number),
        }
    }

    // The gauge whose turn it is.
    fn gauge(&self) -> GaugeMap
        ensures at { IsGaugeAt self.now.line self.now.next result }
        ensures map { IsTrue (is_gauge_map result) }
    {
        self.line.gauges.get()[self.next]
    }

    // Connects where there is no connection.
    fn connect<L: Link>(&self, link: &mut L) -> Result<(), Failed>
        ensures calls { ConnectsFirst (L.calls link.old) (L.calls link.new) self.now result }
        ensures counts { Counts (L.faults link.old) (L.faults link.new) result }
    {
        if self.connected {
            return Ok(());
        }
        link.connect(self.line.host.get(), self.line.port)
    }
}

// The number of the transaction after this one.
fn number_after(number: u16) -> u16
    ensures { result ≡ number_after number }
{
    number.wrapping_add(1)
}

// The index after this one among `count`, the first after the last.
fn index_after(index: usize, count: usize) -> usize
    requires { index < count }
    ensures value { result ≡ index_after index count }
    ensures inside { result < count }
{
    if index + 1 == count { 0 } else { index + 1 }
}
