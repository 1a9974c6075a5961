//! A listener over TCP.

ghost use Rattle.std.specs.Prelude.{◌≡◌, false, is_ok, IfOk, IsErr, None, Ok, OnOk};
ghost use Rattle.farm_base.specs.Counts.{Counts};
ghost use Rattle.farm_listeners.specs.Listeners.{Accepts, HandsBack, IfCame, IsFreshConnection, Listens, connection_of};

use crate::{Accepted, Listener, TcpTalk};
use farm_ports::{Failed, Port};
use libc::net::{POLLIN, poll};
use libc::types::pollfd;
use std::io::{self, ErrorKind};
use std::marker::Model;
use std::net::{Ipv4Addr, Net, TcpListener, TcpStream};
use std::os::fd::AsRawFd;
use std::time::Clock;

// For how many milliseconds an accept waits for a connection.
const WAIT_MILLIS: i32 = 50;

/// A listener over TCP on the loopback address 127.0.0.1. Nothing is known of its events.
///
/// A listen drops the listening before. An accept waits up to 50 milliseconds and never answers `End`. That nobody came, that a
/// signal came and that a peer gave up its connection are `Idle`; any other error of the system is a fault, as is an accept before a
/// listen. A connection that is handed back is shut for sending, and what its peer still sends is dropped, up to 256 KiB and for
/// about a second, so that the last answer arrives.
#[derive(Drop)]
pub struct TcpPost<R> {
    rt: R,
    listener: Option<TcpListener>,
    faults: u64,
}

impl<R> Model for TcpPost<R> {
    ghost use Rattle.std.specs.Prelude.{is_some};
    ghost use Rattle.farm_listeners.specs.Objects.{Listening};

    ghost Value = { Listening R };

    ghost view = { λ post. record { over = post.rt; listening = is_some post.listener; faults = post.faults } };
}

impl<R: Net<Listener = TcpListener, Stream = TcpStream> + Clock + Copy> TcpPost<R> {
    /// A listener that doesn't listen yet, before its first fault.
    pub fn new(rt: R) -> Self
        ensures over { result.over ≡ rt }
        ensures listening { result.listening ≡ false }
        ensures faults { ⟦<TcpPost<R> as Listener>⟧.faults result ≡ 0 }
    {
        TcpPost {
            rt,
            listener: None,
            faults: 0,
        }
    }

    /// How many of its calls failed; the count stands still at the last `u64`.
    pub fn faults(&self) -> u64
        ensures faults { result ≡ ⟦<TcpPost<R> as Listener>⟧.faults self.now }
    {
        self.faults
    }
}

impl<R: Net<Listener = TcpListener, Stream = TcpStream> + Clock + Copy> Listener for TcpPost<R> {
    type Conn = TcpTalk<R>;

    ghost events = { λ _. None };

    ghost faults = { λ post. post.faults };

    fn listen(&mut self, port: u16) -> Result<(), Failed>
        ensures event { Listens (⟦<TcpPost<R> as Listener>⟧.events self.old) (⟦<TcpPost<R> as Listener>⟧.events self.new) port result }
        ensures counts { Counts (⟦<TcpPost<R> as Listener>⟧.faults self.old) (⟦<TcpPost<R> as Listener>⟧.faults self.new) result }
        ensures listening { self.new.listening ≡ is_ok result }
        ensures over { self.new.over ≡ self.old.over }
    {
        self.listener = None;
        match opened(&self.rt, port) {
            Ok(listener) => {
                self.listener = Some(listener);
                Ok(())
            }
            Err(_) => Err(Failed::counted_in(&mut self.faults)),
        }
    }

    fn accept(&mut self) -> Result<Accepted<TcpTalk<R>>, Failed>
        ensures event { Accepts (⟦<TcpPost<R> as Listener>⟧.events self.old) (⟦<TcpPost<R> as Listener>⟧.events self.new) result }
        ensures fresh { IfOk result (λ accepted. IfCame accepted (λ conn.
            IsFreshConnection (connection_of ⟦<TcpTalk<R> as Port>⟧.stream ⟦<TcpTalk<R> as Port>⟧.held ⟦<TcpTalk<R> as Port>⟧.faults conn))) }
        ensures counts { Counts (⟦<TcpPost<R> as Listener>⟧.faults self.old) (⟦<TcpPost<R> as Listener>⟧.faults self.new) result }

        // It never ends. Before a listen it fails, and it leaves the listening as it was.
        ensures never_ends { result ≡ Ok Accepted.End → ⊥ }
        ensures unheard { self.old.listening ≡ false → IsErr result }
        ensures listening { self.new.listening ≡ self.old.listening }
        ensures over { self.new.over ≡ self.old.over }
    {
        let answer = match &self.listener {
            Some(listener) => next_peer(self.rt, listener),
            None => Err(io::Error::from(ErrorKind::NotConnected)),
        };
        match answer {
            Ok(accepted) => Ok(accepted),
            Err(_) => Err(Failed::counted_in(&mut self.faults)),
        }
    }

    fn done(&mut self, conn: TcpTalk<R>)
        ensures event { HandsBack (⟦<TcpPost<R> as Listener>⟧.events self.old) (⟦<TcpPost<R> as Listener>⟧.events self.new)
            (connection_of ⟦<TcpTalk<R> as Port>⟧.stream ⟦<TcpTalk<R> as Port>⟧.held ⟦<TcpTalk<R> as Port>⟧.faults conn) }
        ensures faults { ⟦<TcpPost<R> as Listener>⟧.faults self.new ≡ ⟦<TcpPost<R> as Listener>⟧.faults self.old }
        ensures all { self.new ≡ self.old }
    {
        conn.close();
    }
}

// A listener of the system on the loopback address, of which an accept doesn't wait.
fn opened<R: Net<Listener = TcpListener, Stream = TcpStream>>(
    rt: &R,
    port: u16,
) -> io::Result<TcpListener> {
    let listener = TcpListener::bind(rt, (Ipv4Addr::LOCALHOST, port))?;
    listener.set_nonblocking(true)?;
    Ok(listener)
}

// The next connection that comes while the listener waits.
fn next_peer<R: Clock + Copy>(rt: R, listener: &TcpListener) -> io::Result<Accepted<TcpTalk<R>>>
    ensures fresh { IfOk result (λ accepted. IfCame accepted (λ conn.
        IsFreshConnection (connection_of ⟦<TcpTalk<R> as Port>⟧.stream ⟦<TcpTalk<R> as Port>⟧.held ⟦<TcpTalk<R> as Port>⟧.faults conn))) }
    ensures never_ends { result ≡ Ok Accepted.End → ⊥ }
{
    wait_for_peer(listener);
    match listener.accept() {
        Ok((stream, _)) => Ok(Accepted::Conn(TcpTalk::new(rt, stream)?)),
        Err(error) if is_nobody(error.kind()) => Ok(Accepted::Idle),
        Err(error) => Err(error),
    }
}

// Waits until a connection comes, a signal comes, or the time is over. The accept after it says which.
fn wait_for_peer(listener: &TcpListener) {
    let mut asked = [pollfd {
        fd: listener.as_raw_fd(),
        events: POLLIN,
        revents: 0,
    }];
    let _ = poll(&mut asked, WAIT_MILLIS);
}

// An accept that ended so brought nobody, and the listener is well: EAGAIN, EINTR and ECONNABORTED of the system.
fn is_nobody(kind: ErrorKind) -> bool {
    matches!(
        kind,
        ErrorKind::WouldBlock | ErrorKind::Interrupted | ErrorKind::ConnectionAborted
    )
}
