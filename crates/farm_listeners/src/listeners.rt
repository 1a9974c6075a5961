//! Listeners, to which connections come.

ghost use Rattle.std.specs.Prelude.{◌≡◌, ℕ, IfOk, List, OnOk, Option};
ghost use Rattle.farm_base.specs.Counts.{Counts};
ghost use Rattle.farm_listeners.specs.Listeners.{Accepts, Event, EventsAddUp, HandsBack, IfCame, IsFreshConnection, Listens, NoCallAddsNone, connection_of};

use farm_ports::{Failed, Sink, Source};

/// What an accept gives.
#[derive(Debug, Drop)]
pub enum Accepted<C> {
    /// A connection that came.
    Conn(C),
    /// Nobody came while the listener waited.
    Idle,
    /// No more connections will come.
    End,
}

/// A listener, to which connections come on a port. Who accepts a connection hands it back by `done`.
pub trait Listener {
    /// A connection, from which requests are taken and to which answers are put.
    type Conn: Source + Sink;

    /// What it has seen, in order, where that is known.
    ghost events: { Self → Option (List Event) };

    /// How many faults it has counted, those of its connections not among them. The count stands still at the last `u64`.
    ghost faults: { Self → ℕ };

    /// Begins to listen on a port.
    fn listen(&mut self, port: u16) -> Result<(), Failed>
        ensures event { Listens (Self.events self.old) (Self.events self.new) port result }
        ensures counts { Counts (Self.faults self.old) (Self.faults self.new) result };

    /// Gives the next connection. It is new: where its bytes are known none was taken or put, and its count of faults is 0.
    ///
    /// `Idle` where none came for a while, and `End` where none will come any more.
    fn accept(&mut self) -> Result<Accepted<Self::Conn>, Failed>
        ensures event { Accepts (Self.events self.old) (Self.events self.new) result }
        ensures fresh { IfOk result (λ accepted. IfCame accepted (λ conn.
            IsFreshConnection (connection_of Self.Conn.stream Self.Conn.held Self.Conn.faults conn))) }
        ensures counts { Counts (Self.faults self.old) (Self.faults self.new) result };

    /// Takes back a connection that was served. It takes no memory.
    fn done(&mut self, conn: Self::Conn)
        ensures event { HandsBack (Self.events self.old) (Self.events self.new) (connection_of Self.Conn.stream Self.Conn.held Self.Conn.faults conn) }
        ensures faults { Self.faults self.new ≡ Self.faults self.old };
}

/// Does nothing: its contract is what follows for the events of every listener.
pub fn listener_laws()
    ensures events_add_up { EventsAddUp }
    ensures no_call { NoCallAddsNone }
{}
