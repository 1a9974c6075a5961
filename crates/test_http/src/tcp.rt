//! A listener over TCP, and its peers on the loopback.

use farm_listeners::{Accepted, Listener, TcpPost, TcpTalk};
use farm_ports::{Failed, Sink, Source};
use std::io;
use std::io::{Read, Write};
use std::net::{Net, OpenListener, OpenStream, Shutdown, TcpListener, TcpStream};
use std::test::Fail;
use test_checks::{Checks, shared};

// A connection over the runtime of a test.
type Talk<'a> = TcpTalk<&'a HostRuntime>;

// A port that the system had free.
fn free_port<R: Net>(rt: &R) -> io::Result<u16> {
    let listener = TcpListener::bind(rt, "127.0.0.1:0")?;
    let addr = listener.local_addr();
    drop(listener);
    Ok(addr?.port())
}

// What an accept gave.
#[derive(Clone, Copy, Debug, PartialEq, Eq)]
enum Came {
    Conn,
    Idle,
    End,
}

// A peer asks, and sends no more.
fn ask(peer: &mut TcpStream) -> io::Result<()> {
    peer.write(b"ask")?;
    peer.shutdown(Shutdown::Write)?;
    Ok(())
}

// A peer that asked, and sends no more.
fn peer_of(rt: &HostRuntime, port: u16) -> io::Result<TcpStream> {
    let mut peer = TcpStream::connect(rt, ("127.0.0.1", port))?;
    match ask(&mut peer) {
        Ok(()) => Ok(peer),
        Err(fault) => {
            drop(peer);
            Err(fault)
        }
    }
}

// A call of a connection, and what it answers.
#[derive(Clone, Copy)]
enum Call {
    // A take into the buffer: how many bytes it gives.
    Take(Result<usize, Failed>),
    // The first bytes of the buffer.
    Front(&'static [u8]),
    // A put of these bytes.
    Put(&'static [u8], Result<usize, Failed>),
    Faults(u64),
}

// What a post does with a peer that asked.
const ANSWERED: &[(&str, Call)] = &[
    ("what the peer sent", Call::Take(Ok(3))),
    ("its bytes", Call::Front(b"ask")),
    ("the answer", Call::Put(b"level", Ok(5))),
    ("the end of what it sent", Call::Take(Ok(0))),
    ("no fault", Call::Faults(0)),
];

// One call of a connection answers as its row says.
fn check_call(
    checks: &mut Checks<'_, HostRuntime>,
    talk: &mut Talk<'_>,
    buffer: &mut [u8],
    (name, call): (&str, Call),
) {
    match call {
        Call::Take(want) => checks.same_at(name, talk.take(buffer), want),
        Call::Front(want) => checks.same_at(name, buffer.get(..want.len()), Some(want)),
        Call::Put(bytes, want) => checks.same_at(name, talk.put(bytes), want),
        Call::Faults(want) => checks.same_at(name, talk.faults(), want),
    }
}

// A connection is taken from and answered.
fn check_talk(checks: &mut Checks<'_, HostRuntime>, talk: &mut Talk<'_>) {
    let mut buffer = [0; 8];
    for call in ANSWERED {
        check_call(checks, talk, &mut buffer, *call);
    }
}

// What an accept gives. A connection is answered and handed back.
fn served(
    checks: &mut Checks<'_, HostRuntime>,
    post: &mut TcpPost<&HostRuntime>,
) -> Result<Came, Failed> {
    match post.accept()? {
        Accepted::Conn(talk) => {
            let mut talk = shared(talk);
            check_talk(checks, &mut talk);
            post.done(talk);
            Ok(Came::Conn)
        }
        Accepted::Idle => Ok(Came::Idle),
        Accepted::End => Ok(Came::End),
    }
}

// What a post answers to an accept.
fn check_served(
    checks: &mut Checks<'_, HostRuntime>,
    post: &mut TcpPost<&HostRuntime>,
    name: &str,
    want: Result<Came, Failed>,
) {
    let came = served(checks, post);
    checks.same_at(name, came, want);
}

// All that a peer receives, up to the end.
fn check_peer(checks: &mut Checks<'_, HostRuntime>, peer: &mut TcpStream) -> io::Result<()> {
    let mut buffer = [0; 8];
    let count = peer.read(&mut buffer)?;
    checks.same_at(
        "the peer's bytes",
        buffer.get(..count),
        Some(b"level".as_slice()),
    );
    checks.same_at("its end", peer.read(&mut buffer)?, 0);
    Ok(())
}

// A post serves a peer that asked.
fn check_asked(
    checks: &mut Checks<'_, HostRuntime>,
    post: &mut TcpPost<&HostRuntime>,
    peer: &mut TcpStream,
) -> io::Result<()> {
    check_served(checks, post, "a peer comes", Ok(Came::Conn));
    check_peer(checks, peer)?;
    check_served(checks, post, "nobody comes any more", Ok(Came::Idle));
    Ok(())
}

// A post at a port serves a peer.
fn check_post(
    checks: &mut Checks<'_, HostRuntime>,
    rt: &HostRuntime,
    post: &mut TcpPost<&HostRuntime>,
    port: u16,
) -> io::Result<()> {
    check_served(checks, post, "nobody comes", Ok(Came::Idle));
    let mut peer = peer_of(rt, port)?;
    let asked = check_asked(checks, post, &mut peer);
    drop(peer);
    asked
}

// A port that is taken is a fault of the listener that is second.
fn check_second(checks: &mut Checks<'_, HostRuntime>, rt: &HostRuntime, port: u16) {
    let mut second = TcpPost::new(rt);
    checks.same_at("a port that is taken", second.listen(port), Err(Failed));
    checks.same_at("its fault", second.faults(), 1);
    drop(second);
}

// A post that listens at a port serves a peer, and has that port alone.
fn check_listening(
    checks: &mut Checks<'_, HostRuntime>,
    rt: &HostRuntime,
    post: &mut TcpPost<&HostRuntime>,
    port: u16,
) -> io::Result<()> {
    check_post(checks, rt, post, port)?;
    check_second(checks, rt, port);
    checks.same_at("one fault", post.faults(), 1);
    Ok(())
}

#[test]
fn a_peer_is_answered_over_tcp(rt: HostRuntime) -> Result<(), Fail> {
    let mut checks = Checks::new(&rt);
    let port = free_port(&rt)?;
    let mut post = shared(TcpPost::new(&rt));
    check_served(&mut checks, &mut post, "before a listen", Err(Failed));
    checks.same_at("a listen", post.listen(port), Ok(()));
    let listening = check_listening(&mut checks, &rt, &mut post, port);
    drop(post);
    listening?;
    Ok(checks.end()?)
}
