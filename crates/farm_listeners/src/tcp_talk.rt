//! A connection over TCP.

ghost use Rattle.std.specs.Prelude.{◌≡◌, IfOk, OnOk};
ghost use Rattle.farm_base.specs.Counts.{Counts};
ghost use Rattle.farm_ports.specs.Ports.{PutGives, TakeGives};

use farm_ports::{Failed, Port, Sink, Source};
use std::io::{self, Read, Write};
use std::marker::Model;
use std::net::{Shutdown, TcpStream};
use std::time::{Clock, Duration, Instant};

// For how many seconds a take or a put waits for the peer.
const MOVE_SECONDS: u64 = 10;

// For how many seconds after its last put, or after it came, a connection may be taken from.
const PEER_SECONDS: u64 = 60;

// For how many seconds a closing drops what the peer still sends.
const CLOSE_SECONDS: u64 = 1;

// How many bytes of it a closing drops: 256 KiB.
const MOST_DROPPED: usize = 262_144;

/// A connection over TCP. Nothing is known of its bytes.
///
/// It sends at once. A take or a put waits up to 10 seconds for the peer. A take fails more than 60 seconds after the last put, or,
/// where nothing was put, after the connection came, so that a peer that sends byte by byte can't hold it. The end of what the peer
/// sends is no fault.
#[derive(Drop)]
pub struct TcpTalk<R> {
    rt: R,
    stream: TcpStream,
    // When the last put ended, or when it came.
    since: Instant,
    faults: u64,
}

impl<R> Model for TcpTalk<R> {
    ghost use Rattle.farm_ports.specs.Objects.{Counted};

    ghost Value = { Counted R };

    ghost view = { λ talk. record { over = talk.rt; faults = talk.faults } };
}

impl<R: Clock + Copy> TcpTalk<R> {
    // A connection that has just come, before its first fault.
    pub(crate) fn new(rt: R, stream: TcpStream) -> io::Result<Self>
        ensures over { IfOk result (λ talk. talk.over ≡ rt) }
        ensures faults { IfOk result (λ talk. ⟦<TcpTalk<R> as Port>⟧.faults talk ≡ 0) }
    {
        let wait = Some(Duration::from_secs(MOVE_SECONDS));
        stream.set_nodelay(true)?;
        stream.set_read_timeout(wait)?;
        stream.set_write_timeout(wait)?;
        let since = Instant::now(&rt)?;
        Ok(TcpTalk {
            rt,
            stream,
            since,
            faults: 0,
        })
    }

    /// How many of its takes and puts failed; the count stands still at the last `u64`.
    pub fn faults(&self) -> u64
        ensures faults { result ≡ ⟦<TcpTalk<R> as Port>⟧.faults self.now }
    {
        self.faults
    }

    // Its last put, or its coming, is too long ago for a take, or the clock can't be read.
    fn is_late(&self) -> bool {
        match self.since.elapsed(&self.rt) {
            Ok(elapsed) => elapsed > Duration::from_secs(PEER_SECONDS),
            Err(_) => true,
        }
    }

    // Shuts the sending side, and drops what the peer still sends: a connection that is closed before is reset, and the peer may
    // lose what was put last.
    pub(crate) fn close(mut self) {
        if self.stream.shutdown(Shutdown::Write).is_ok() {
            let _ = drop_rest(&self.rt, &mut self.stream);
        }
    }
}

impl<R> Port for TcpTalk<R> {
    ghost use Rattle.std.specs.Prelude.{None};

    ghost stream = { λ _. None };

    ghost held = { λ _. None };

    ghost faults = { λ talk. talk.faults };
}

impl<R: Clock + Copy> Source for TcpTalk<R> {
    fn take(&mut self, into: &mut [u8]) -> Result<usize, Failed>
        ensures bytes { TakeGives (⟦<TcpTalk<R> as Port>⟧.stream self.old) (⟦<TcpTalk<R> as Port>⟧.stream self.new) into.new result }
        ensures held { ⟦<TcpTalk<R> as Port>⟧.held self.new ≡ ⟦<TcpTalk<R> as Port>⟧.held self.old }
        ensures counts { Counts (⟦<TcpTalk<R> as Port>⟧.faults self.old) (⟦<TcpTalk<R> as Port>⟧.faults self.new) result }
        ensures over { self.new.over ≡ self.old.over }
    {
        if self.is_late() {
            return Err(Failed::counted_in(&mut self.faults));
        }
        match self.stream.read(into) {
            Ok(count) => Ok(count),
            Err(_) => Err(Failed::counted_in(&mut self.faults)),
        }
    }
}

impl<R: Clock + Copy> Sink for TcpTalk<R> {
    fn put(&mut self, bytes: &[u8]) -> Result<usize, Failed>
        ensures bytes { PutGives (⟦<TcpTalk<R> as Port>⟧.held self.old) (⟦<TcpTalk<R> as Port>⟧.held self.new) bytes.now result }
        ensures stream { ⟦<TcpTalk<R> as Port>⟧.stream self.new ≡ ⟦<TcpTalk<R> as Port>⟧.stream self.old }
        ensures counts { Counts (⟦<TcpTalk<R> as Port>⟧.faults self.old) (⟦<TcpTalk<R> as Port>⟧.faults self.new) result }
        ensures over { self.new.over ≡ self.old.over }
    {
        match self.stream.write(bytes) {
            // That nothing of a piece was taken would keep the caller waiting forever.
            Ok(0) if !bytes.is_empty() => Err(Failed::counted_in(&mut self.faults)),
            Ok(count) => {
                if let Ok(now) = Instant::now(&self.rt) {
                    self.since = now;
                }
                Ok(count)
            }
            Err(_) => Err(Failed::counted_in(&mut self.faults)),
        }
    }
}

// Drops what the peer still sends, up to its end, or as much of it and for as long as a closing may.
fn drop_rest<R: Clock>(rt: &R, stream: &mut TcpStream) -> io::Result<()> {
    let most = Duration::from_secs(CLOSE_SECONDS);
    let begun = Instant::now(rt)?;
    let mut chunk = [0; 4_096];
    let mut left = MOST_DROPPED;
    while left > 0 {
        // Where no time is left the system refuses it, which ends the dropping.
        let wait = most.saturating_sub(begun.elapsed(rt)?);
        stream.set_read_timeout(Some(wait))?;
        let dropped = stream.read(&mut chunk)?;
        if dropped == 0 {
            return Ok(());
        }
        left = left.saturating_sub(dropped);
    }
    Ok(())
}
