//! A link in memory, and one over TCP to a device on the loopback.

use farm_base::NoMemory;
use farm_ports::{Failed, Link, LinkCall, Port, TcpLink, Wire};
use std::alloc::Global;
use std::io;
use std::io::{Read, Write};
use std::net::{Net, OpenListener, TcpListener};
use std::test::Fail;
use test_checks::{Checks, shared};

// Connects, sends a request, and receives what comes first of the answer.
fn ask<L: Link>(link: &mut L, port: u16, into: &mut [u8]) -> Result<usize, Failed> {
    link.connect(b"127.0.0.1", port)?;
    link.send(b"ask")?;
    link.recv(into)
}

// A link with the responses "abc" and "de", whose first call fails.
fn two_responses(alloc: Global) -> Result<Wire, NoMemory> {
    let responses = vec![in alloc; b"abc".to_vec(alloc)?, b"de".to_vec(alloc)?]?;
    Wire::new(alloc, responses, vec![in alloc; 1]?)
}

// A call of a link, and what it answers.
#[derive(Clone, Copy)]
enum Call {
    // A connect to a host.
    Connect(&'static [u8], Result<(), Failed>),
    // A send.
    Send(&'static [u8], Result<usize, Failed>),
    // A receive into the buffer: how many bytes it gives.
    Recv(Result<usize, Failed>),
    // A connect, a send and a receive.
    Ask(Result<usize, Failed>),
    // The first bytes of the buffer.
    Front(&'static [u8]),
    Pause,
}

// Calls in their order, each with its name.
type Calls = &'static [(&'static str, Call)];

// One call of a link at a port answers as its row says.
fn check_call<L: Link, R: Print>(
    checks: &mut Checks<'_, R>,
    link: &mut L,
    port: u16,
    buffer: &mut [u8],
    (name, call): (&str, Call),
) {
    match call {
        Call::Connect(host, want) => checks.same_at(name, link.connect(host, port), want),
        Call::Send(bytes, want) => checks.same_at(name, link.send(bytes), want),
        Call::Recv(want) => checks.same_at(name, link.recv(buffer), want),
        Call::Ask(want) => checks.same_at(name, ask(link, port, buffer), want),
        Call::Front(want) => checks.same_at(name, buffer.get(..want.len()), Some(want)),
        Call::Pause => link.pause(),
    }
}

// Calls of a link at a port, with a buffer for what it receives, answer as their rows say.
fn check_calls<L: Link, R: Print>(
    checks: &mut Checks<'_, R>,
    link: &mut L,
    port: u16,
    buffer: &mut [u8],
    calls: Calls,
) {
    for call in calls {
        check_call(checks, link, port, buffer, *call);
    }
}

const WIRE_CALLS: Calls = &[
    ("a connect that fails", Call::Ask(Err(Failed))),
    ("the first response", Call::Ask(Ok(2))),
    ("its first bytes", Call::Front(b"ab")),
    ("what was left is dropped", Call::Ask(Ok(2))),
    ("the second response", Call::Front(b"de")),
    ("nothing is left", Call::Recv(Err(Failed))),
    ("a pause", Call::Pause),
];

// What a wire kept of its calls.
fn check_kept<R: Print>(checks: &mut Checks<'_, R>, wire: &Wire) {
    checks.same_at("faults", wire.faults(), 2);
    checks.same_at("calls", wire.calls().len(), 9);
    let is_pause = matches!(wire.calls().last(), Some(LinkCall::Paused));
    checks.same_at("the last is the pause", is_pause, true);
}

#[test]
fn a_wire_gives_its_responses(rt: HostRuntime) -> Result<(), Fail> {
    let mut checks = Checks::new(&rt);
    let mut wire = shared(two_responses(rt.alloc())?);
    check_calls(&mut checks, &mut wire, 502, &mut [0; 2], WIRE_CALLS);
    check_kept(&mut checks, &wire);
    drop(wire);
    Ok(checks.end()?)
}

// The same with room for a connect.
fn with_room(alloc: Global) -> Result<Wire, NoMemory> {
    let mut wire = two_responses(alloc)?;
    if let Err(fault) = wire.reserve(1, 9) {
        drop(wire);
        return Err(fault);
    }
    Ok(wire)
}

#[test]
fn a_wire_with_room_keeps_a_listed_connect(rt: HostRuntime) -> Result<(), Fail> {
    let mut checks = Checks::new(&rt);
    let mut wire = with_room(rt.alloc())?;
    checks.same(wire.connect(b"127.0.0.1", 502), Err(Failed));
    checks.same(wire.calls().len(), 1);
    drop(wire);
    Ok(checks.end()?)
}

// The device takes a connection, answers, reads a request, and closes the connection.
fn answer_one(device: &TcpListener, request: &mut [u8]) -> io::Result<usize> {
    let (mut stream, _) = device.accept()?;
    stream.write(b"level")?;
    stream.read(request)
}

// A listener of this test, on a port that the system chose, and its port.
fn device_of<R: Net>(rt: &R) -> io::Result<(R::Listener, u16)> {
    let device = TcpListener::bind(rt, "127.0.0.1:0")?;
    let port = device.local_addr()?.port();
    Ok((device, port))
}

const ASKED: Calls = &[
    ("a send before a connect", Call::Send(b"", Err(Failed))),
    ("a connect", Call::Connect(b"127.0.0.1", Ok(()))),
    ("a send", Call::Send(b"ask", Ok(3))),
];

const ANSWERED: Calls = &[
    ("what the device read", Call::Front(b"ask")),
    ("a receive", Call::Recv(Ok(5))),
    ("what it gave", Call::Front(b"level")),
    ("a pause", Call::Pause),
];

const AT_THE_END: Calls = &[("a receive at the end", Call::Recv(Err(Failed)))];

const NOBODY_LISTENS: Calls = &[
    ("nobody listens any more", Call::Ask(Err(Failed))),
    (
        "a host has to be a text",
        Call::Connect(&[255], Err(Failed)),
    ),
];

// A request to a device and its answer.
fn check_asked(
    checks: &mut Checks<'_, HostRuntime>,
    link: &mut TcpLink<&HostRuntime>,
    device: &TcpListener,
    port: u16,
) {
    let mut buffer = [0; 8];
    check_calls(checks, link, port, &mut buffer, ASKED);
    let read = answer_one(device, &mut buffer).unwrap_or(0);
    checks.same_at("the device reads", read, 3);
    check_calls(checks, link, port, &mut buffer, ANSWERED);
    checks.same_at("one fault", link.faults(), 1);
    check_calls(checks, link, port, &mut buffer, AT_THE_END);
}

#[test]
fn a_device_is_asked_over_tcp(rt: HostRuntime) -> Result<(), Fail> {
    let mut checks = Checks::new(&rt);
    let (device, port) = device_of(&rt)?;
    let mut link = shared(TcpLink::new(&rt));
    check_asked(&mut checks, &mut link, &device, port);
    drop(device);
    check_calls(&mut checks, &mut link, port, &mut [0; 8], NOBODY_LISTENS);
    checks.same_at("four faults", link.faults(), 4);
    drop(link);
    Ok(checks.end()?)
}
