//! Connections, listeners and links in memory, some of which wait until a connection was answered, and connections that look at a stock until it
//! has a reading. Those that wait share a word that says whether a connection was answered.

ghost use Rattle.std.specs.Prelude.{◌≡◌, ◌≤◌, length};

use farm_listeners::{Accepted, Listener, Talk, Visits};
use farm_ports::{Failed, Link, Port, Sink, Source, Wire};
use std::hint;
use std::sync::atomic::{AtomicBool, Ordering};

// How often who waits looks at the word: for some 1.3 seconds of its own time.
const LOOKS: u32 = 100_000_000;

// Waits until a connection was answered, but not forever. Whether one was.
fn was_answered(answered: &AtomicBool) -> bool {
    for _ in 0..LOOKS {
        if answered.load(Ordering::SeqCst) {
            return true;
        }
        hint::spin_loop();
    }
    false
}

// A look at the stock of tank 101.
const STOCK: &[u8] = b"GET /stock/101 HTTP/1.1\r\n\r\n";

// How often a connection looks at most, and how long it rests after a look: together for about as long as who waits.
const STOCKS: u32 = 5_000;

const REST: u32 = LOOKS / STOCKS;

// Rests for a while.
fn rest() {
    for _ in 0..REST {
        hint::spin_loop();
    }
}

// Copies the beginning of bytes, as much as there is room for, and says how much that is.
fn copy_beginning(bytes: &[u8], into: &mut [u8]) -> usize
    ensures { result ≤ length into.old }
{
    let count = bytes.len().min(into.len());
    into[..count].copy_from_slice(&bytes[..count]);
    count
}

/// A connection in memory. One that waits gives its bytes once another one was answered, and else its end. One that looks asks for the stock of
/// tank 101 before anything else, again and again but not forever, until a page ends with a text; the pages of its looks aren't kept.
#[derive(Drop)]
pub struct LateTalk<'a> {
    talk: Talk,
    waits: bool,
    // The end of the page that it looks for, empty once it came.
    until: &'static [u8],
    // How often it may still look.
    looks: u32,
    answered: &'a AtomicBool,
}

impl LateTalk<'_> {
    // The next look, or the end after the last one.
    fn look(&mut self, into: &mut [u8]) -> usize
        ensures within { result ≤ length into.old }
        ensures talk { self.new.talk ≡ self.old.talk }
    {
        if self.looks == 0 {
            return 0;
        }
        self.looks -= 1;
        copy_beginning(STOCK, into)
    }

    // Takes note of a page that answers a look.
    fn see(&mut self, page: &[u8])
        ensures talk { self.new.talk ≡ self.old.talk }
    {
        if page.ends_with(self.until) {
            self.until = b"";
        } else {
            rest();
        }
    }
}

impl Port for LateTalk<'_> {
    ghost use Rattle.std.specs.Prelude.{None};

    ghost stream = { λ _. None };

    ghost held = { λ _. None };

    ghost faults = { λ late. ⟦<Talk as Port>⟧.faults late.talk };
}

impl Source for LateTalk<'_> {
    fn take(&mut self, into: &mut [u8]) -> Result<usize, Failed> {
        if self.waits && !was_answered(self.answered) {
            return Ok(0);
        }
        if !self.until.is_empty() {
            return Ok(self.look(into));
        }
        self.talk.take(into)
    }
}

impl Sink for LateTalk<'_> {
    fn put(&mut self, bytes: &[u8]) -> Result<usize, Failed> {
        if !self.until.is_empty() {
            self.see(bytes);
            return Ok(bytes.len());
        }
        let count = self.talk.put(bytes)?;
        self.answered.store(true, Ordering::SeqCst);
        Ok(count)
    }
}

/// A listener in memory whose first accepts are idle.
#[derive(Drop)]
pub struct LateVisits<'a> {
    visits: Visits,
    idle: u32,
    waits: bool,
    until: &'static [u8],
    answered: &'a AtomicBool,
}

impl<'a> LateVisits<'a> {
    /// A listener that is idle at this many accepts before it is this one, and whose connections wait or not, and look until a page ends with
    /// a text or, if it is empty, don't look.
    pub(crate) fn new(
        visits: Visits,
        idle: u32,
        waits: bool,
        until: &'static [u8],
        answered: &'a AtomicBool,
    ) -> Self {
        LateVisits {
            visits,
            idle,
            waits,
            until,
            answered,
        }
    }

    /// The listener in memory.
    pub(crate) fn visits(&self) -> &Visits {
        &self.visits
    }
}

impl<'a> Listener for LateVisits<'a> {
    ghost use Rattle.std.specs.Prelude.{None};

    type Conn = LateTalk<'a>;

    ghost events = { λ _. None };

    ghost faults = { λ late. ⟦<Visits as Listener>⟧.faults late.visits };

    fn listen(&mut self, port: u16) -> Result<(), Failed> {
        self.visits.listen(port)
    }

    fn accept(&mut self) -> Result<Accepted<LateTalk<'a>>, Failed> {
        if self.idle > 0 {
            self.idle -= 1;
            return Ok(Accepted::Idle);
        }
        match self.visits.accept()? {
            Accepted::Conn(talk) => Ok(Accepted::Conn(LateTalk {
                talk,
                waits: self.waits,
                until: self.until,
                looks: STOCKS,
                answered: self.answered,
            })),
            Accepted::Idle => Ok(Accepted::Idle),
            Accepted::End => Ok(Accepted::End),
        }
    }

    fn done(&mut self, conn: LateTalk<'a>) {
        self.visits.done(conn.talk);
    }
}

/// A link in memory. One that waits connects once a connection was answered.
#[derive(Drop)]
pub struct LateWire<'a> {
    wire: Wire,
    waits: bool,
    answered: &'a AtomicBool,
}

impl<'a> LateWire<'a> {
    /// This link, which waits or not.
    pub(crate) fn new(wire: Wire, waits: bool, answered: &'a AtomicBool) -> Self {
        LateWire {
            wire,
            waits,
            answered,
        }
    }

    /// The link in memory.
    pub(crate) fn wire(&self) -> &Wire {
        &self.wire
    }
}

impl Link for LateWire<'_> {
    ghost use Rattle.std.specs.Prelude.{None};

    ghost calls = { λ _. None };

    ghost faults = { λ late. ⟦<Wire as Link>⟧.faults late.wire };

    fn connect(&mut self, host: &[u8], port: u16) -> Result<(), Failed> {
        if self.waits {
            was_answered(self.answered);
        }
        self.wire.connect(host, port)
    }

    fn send(&mut self, bytes: &[u8]) -> Result<usize, Failed> {
        self.wire.send(bytes)
    }

    fn recv(&mut self, into: &mut [u8]) -> Result<usize, Failed> {
        self.wire.recv(into)
    }

    fn pause(&mut self) {
        self.wire.pause();
    }
}
