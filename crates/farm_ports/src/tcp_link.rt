//! A link over a TCP connection of the system.

ghost use Rattle.std.specs.Prelude.{◌≡◌, ◌<◌, ◌≤◌, ◌∷◌, [], false, is_ok, IfOk, IsErr, None, OnOk};
ghost use Rattle.farm_base.specs.Counts.{Counts, Rose};
ghost use Rattle.farm_ports.specs.Links.{AddsCalls, Connects, Receives, Sends};

use crate::{Failed, Link, LinkCall};
use std::io::{ErrorKind, Read, Write};
use std::marker::Model;
use std::net::{Net, OpenStream, TcpStream, ToSocketAddrs};
use std::time::{Clock, Duration};
use std::{io, str, thread};

// For how many seconds a connect waits for each address of a host.
const CONNECT_SECONDS: u64 = 5;

// For how many seconds a send or a receive waits for the device.
const ANSWER_SECONDS: u64 = 2;

// How many seconds a pause lasts.
const PAUSE_SECONDS: u64 = 1;

/// A link over a TCP connection. Nothing is known of its calls.
///
/// A connect waits up to 5 seconds for each address of the host, a send or a receive up to 2 seconds for the device; the look-up
/// of a host's name waits as long as the system lets it. After a failed connect there is no connection.
#[derive(Drop)]
pub struct TcpLink<R: Net> {
    rt: R,
    stream: Option<R::Stream>,
    faults: u64,
}

impl<R: Net> Model for TcpLink<R> {
    ghost use Rattle.std.specs.Prelude.{is_some};
    ghost use Rattle.farm_ports.specs.Objects.{Connected};

    ghost Value = { Connected R };

    ghost view = { λ link. record { over = link.rt; connected = is_some link.stream; faults = link.faults } };
}

impl<R: Net + Clock> TcpLink<R> {
    /// A link without a connection, before its first fault.
    pub fn new(rt: R) -> Self
        ensures over { result.over ≡ rt }
        ensures connected { result.connected ≡ false }
        ensures faults { ⟦<TcpLink<R> as Link>⟧.faults result ≡ 0 }
    {
        TcpLink {
            rt,
            stream: None,
            faults: 0,
        }
    }

    /// How many of its calls failed; the count stands still at the last `u64`.
    pub fn faults(&self) -> u64
        ensures faults { result ≡ ⟦<TcpLink<R> as Link>⟧.faults self.now }
    {
        self.faults
    }

    // Counts a fault, and answers what the call that met it returns.
    fn fault(&mut self) -> Failed
        ensures rose { Rose self.old.faults self.new.faults }
        ensures never_falls { self.old.faults ≤ self.new.faults }
        ensures over { self.new.over ≡ self.old.over }
        ensures connected { self.new.connected ≡ self.old.connected }
    {
        Failed::counted_in(&mut self.faults)
    }

    // How many bytes a read or a write of at most `most` moved. That none of some moved is a fault: it is the end.
    fn moved(&mut self, answer: io::Result<usize>, most: usize) -> Result<usize, Failed>
        requires within { IfOk answer (λ count. count ≤ most) }
        ensures within { IfOk result (λ count. count ≤ most) }
        ensures some { IfOk result (λ count. 0 < most → 0 < count) }
        ensures failed { IsErr answer → IsErr result }
        ensures counts { Counts self.old.faults self.new.faults result }
        ensures over { self.new.over ≡ self.old.over }
        ensures connected { self.new.connected ≡ self.old.connected }
    {
        match answer {
            Ok(0) if most > 0 => Err(self.fault()),
            Ok(count) => Ok(count),
            Err(_) => Err(self.fault()),
        }
    }
}

impl<R: Net + Clock> Link for TcpLink<R> {
    ghost calls = { λ _. None };

    ghost faults = { λ link. link.faults };

    fn connect(&mut self, host: &[u8], port: u16) -> Result<(), Failed>
        ensures call { Connects (⟦<TcpLink<R> as Link>⟧.calls self.old) (⟦<TcpLink<R> as Link>⟧.calls self.new) host.now port result }
        ensures counts { Counts (⟦<TcpLink<R> as Link>⟧.faults self.old) (⟦<TcpLink<R> as Link>⟧.faults self.new) result }
        ensures connected { self.new.connected ≡ is_ok result }
        ensures over { self.new.over ≡ self.old.over }
    {
        self.stream = None;
        match opened(&self.rt, host, port) {
            Ok(stream) => {
                self.stream = Some(stream);
                Ok(())
            }
            Err(_) => Err(self.fault()),
        }
    }

    fn send(&mut self, bytes: &[u8]) -> Result<usize, Failed>
        ensures call { Sends (⟦<TcpLink<R> as Link>⟧.calls self.old) (⟦<TcpLink<R> as Link>⟧.calls self.new) bytes.now result }
        ensures counts { Counts (⟦<TcpLink<R> as Link>⟧.faults self.old) (⟦<TcpLink<R> as Link>⟧.faults self.new) result }

        // Without a connection it fails, and it leaves the connection as it was.
        ensures unconnected { self.old.connected ≡ false → IsErr result }
        ensures connected { self.new.connected ≡ self.old.connected }
        ensures over { self.new.over ≡ self.old.over }
    {
        let answer = match &mut self.stream {
            Some(stream) => stream.write(bytes),
            None => Err(io::Error::from(ErrorKind::NotConnected)),
        };
        self.moved(answer, bytes.len())
    }

    fn recv(&mut self, into: &mut [u8]) -> Result<usize, Failed>
        ensures call { Receives (⟦<TcpLink<R> as Link>⟧.calls self.old) (⟦<TcpLink<R> as Link>⟧.calls self.new) into.new result }
        ensures counts { Counts (⟦<TcpLink<R> as Link>⟧.faults self.old) (⟦<TcpLink<R> as Link>⟧.faults self.new) result }
        ensures unconnected { self.old.connected ≡ false → IsErr result }
        ensures connected { self.new.connected ≡ self.old.connected }
        ensures over { self.new.over ≡ self.old.over }
    {
        let answer = match &mut self.stream {
            Some(stream) => stream.read(into),
            None => Err(io::Error::from(ErrorKind::NotConnected)),
        };
        self.moved(answer, into.len())
    }

    fn pause(&mut self)
        ensures call { AddsCalls (⟦<TcpLink<R> as Link>⟧.calls self.old) (⟦<TcpLink<R> as Link>⟧.calls self.new) (LinkCall.Paused ∷ []) }
        ensures faults { ⟦<TcpLink<R> as Link>⟧.faults self.new ≡ ⟦<TcpLink<R> as Link>⟧.faults self.old }
        ensures all { self.new ≡ self.old }
    {
        thread::sleep(&self.rt, Duration::from_secs(PAUSE_SECONDS));
    }
}

// A connection to the first address of the host that answers, set to send at once and to wait no longer than it may.
fn opened<R: Net>(rt: &R, host: &[u8], port: u16) -> io::Result<R::Stream> {
    let Ok(host) = str::from_utf8(host) else {
        return Err(io::Error::from(ErrorKind::InvalidInput));
    };
    let stream = first_answering(rt, host, port)?;
    let wait = Some(Duration::from_secs(ANSWER_SECONDS));
    stream.set_nodelay(true)?;
    stream.set_read_timeout(wait)?;
    stream.set_write_timeout(wait)?;
    Ok(stream)
}

// A connection to the first address of the host that answers.
fn first_answering<R: Net>(rt: &R, host: &str, port: u16) -> io::Result<R::Stream> {
    let wait = Duration::from_secs(CONNECT_SECONDS);
    for address in (host, port).to_socket_addrs(rt)? {
        if let Ok(stream) = TcpStream::connect_timeout(rt, &address, wait) {
            return Ok(stream);
        }
    }
    Err(io::Error::from(ErrorKind::NotConnected))
}
