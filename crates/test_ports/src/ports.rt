//! Sources and sinks, in memory and real.

ghost use Rattle.std.specs.Prelude.{ℕ, List, OnOk};
ghost use Rattle.farm_base.specs.Known.{Adds, Takes};

use farm_base::NoMemory;
use farm_ports::{
    Failed, Gather, Port, PortFault, Script, Sink, Source, StdSink, StdSource, put_all, read_up_to,
};
use std::alloc::Global;
use std::io;
use std::io::Read;
use std::test::Fail;
use test_checks::{Checks, shared};

// "ab", then a piece without a byte, then "cde"; the second take fails.
fn three_pieces(alloc: Global) -> Result<Script, NoMemory> {
    let pieces = vec![in alloc;
        b"ab".to_vec(alloc)?,
        Vec::new(alloc),
        b"cde".to_vec(alloc)?,
    ]?;
    Script::new(alloc, pieces, vec![in alloc; 2]?)
}

// A call of a script, and what it answers.
#[derive(Clone, Copy)]
enum ScriptCall {
    // A take into the buffer: how many bytes it gives.
    Take(Result<usize, Failed>),
    // The first bytes of the buffer.
    Front(&'static [u8]),
    Taken(&'static [u8]),
    Left(&'static [u8]),
    Faults(u64),
}

// One call of a script answers as its row says.
fn check_script_call<R: Print>(
    checks: &mut Checks<'_, R>,
    script: &mut Script,
    buffer: &mut [u8],
    (name, call): (&str, ScriptCall),
) {
    match call {
        ScriptCall::Take(want) => checks.same_at(name, script.take(buffer), want),
        ScriptCall::Front(want) => checks.same_at(name, buffer.get(..want.len()), Some(want)),
        ScriptCall::Taken(want) => checks.same_at(name, script.taken(), want),
        ScriptCall::Left(want) => checks.same_at(name, script.left(), want),
        ScriptCall::Faults(want) => checks.same_at(name, script.faults(), want),
    }
}

// Calls of a script with a buffer for its takes.
fn check_script<R: Print>(
    checks: &mut Checks<'_, R>,
    script: &mut Script,
    buffer: &mut [u8],
    calls: &[(&str, ScriptCall)],
) {
    for call in calls {
        check_script_call(checks, script, buffer, *call);
    }
}

const PIECE_BY_PIECE: &[(&str, ScriptCall)] = &[
    ("the first piece", ScriptCall::Take(Ok(2))),
    ("a take that fails", ScriptCall::Take(Err(Failed))),
    ("the third piece", ScriptCall::Take(Ok(3))),
    ("the end", ScriptCall::Take(Ok(0))),
    ("the buffer", ScriptCall::Front(b"cde")),
    ("what was taken", ScriptCall::Taken(b"abcde")),
    ("what is left", ScriptCall::Left(b"")),
    ("one fault", ScriptCall::Faults(1)),
];

#[test]
fn a_script_gives_piece_by_piece(rt: HostRuntime) -> Result<(), Fail> {
    let mut checks = Checks::new(&rt);
    let mut script = shared(three_pieces(rt.alloc())?);
    check_script(&mut checks, &mut script, &mut [0; 8], PIECE_BY_PIECE);
    drop(script);
    Ok(checks.end()?)
}

const ONE_BYTE: &[(&str, ScriptCall)] = &[
    ("a take", ScriptCall::Take(Ok(1))),
    ("what was taken", ScriptCall::Taken(b"a")),
    ("what is left", ScriptCall::Left(b"bcde")),
];

#[test]
fn a_small_buffer_is_filled(rt: HostRuntime) -> Result<(), Fail> {
    let mut checks = Checks::new(&rt);
    let mut script = three_pieces(rt.alloc())?;
    check_script(&mut checks, &mut script, &mut [0; 1], ONE_BYTE);
    drop(script);
    Ok(checks.end()?)
}

// A put, and what it answers.
#[derive(Clone, Copy)]
enum Put {
    // By one call.
    Some(&'static [u8], Result<usize, Failed>),
    // Of all bytes.
    All(&'static [u8], Result<(), Failed>),
}

// One put answers as its row says.
fn check_put<K: Sink, R: Print>(
    checks: &mut Checks<'_, R>,
    sink: &mut K,
    (name, put): (&str, Put),
) {
    match put {
        Put::Some(bytes, want) => checks.same_at(name, sink.put(bytes), want),
        Put::All(bytes, want) => checks.same_at(name, put_all(sink, bytes), want),
    }
}

// Puts to a sink answer as their rows say.
fn check_puts<K: Sink, R: Print>(checks: &mut Checks<'_, R>, sink: &mut K, puts: &[(&str, Put)]) {
    for put in puts {
        check_put(checks, sink, *put);
    }
}

// A gather whose puts of these numbers fail.
fn gather_of(alloc: Global, fails: &[u64]) -> Result<Gather, NoMemory> {
    Ok(shared(Gather::new(alloc, fails.to_vec(alloc)?)?))
}

const GATHERED: &[(&str, Put)] = &[
    ("a put", Put::Some(b"ab", Ok(2))),
    ("a put that fails", Put::Some(b"lost", Err(Failed))),
    ("a put of all", Put::All(b"cd", Ok(()))),
];

#[test]
fn a_gather_keeps_what_it_takes(rt: HostRuntime) -> Result<(), Fail> {
    let mut checks = Checks::new(&rt);
    let mut gather = gather_of(rt.alloc(), &[2])?;
    check_puts(&mut checks, &mut gather, GATHERED);
    checks.same_at("what was gathered", gather.bytes(), b"abcd".as_slice());
    checks.same_at("one fault", gather.faults(), 1);
    drop(gather);
    Ok(checks.end()?)
}

// Moves up to 4,096 bytes from a source to a sink.
fn relay<S: Source, K: Sink>(alloc: Global, source: &mut S, sink: &mut K) -> Result<(), PortFault>
    ensures moved { OnOk result ((bytes : List ℕ) ×
        Takes (S.stream source.old) (S.stream source.new) bytes × Adds (K.held sink.old) (K.held sink.new) bytes) }
{
    let bytes = read_up_to(alloc, source, 4_096)?;
    put_all(sink, &bytes)?;
    Ok(())
}

// What each relay answers, and what the sink then has.
const RELAYS: &[(&str, Result<(), PortFault>, &[u8])] = &[
    ("a take fails", Err(PortFault::Failed), b""),
    ("the rest", Ok(()), b"cde"),
];

// Each relay from a script to a gather.
fn check_relays<R: Print>(
    checks: &mut Checks<'_, R>,
    alloc: Global,
    script: &mut Script,
    gather: &mut Gather,
) {
    for (name, want, held) in RELAYS {
        checks.same_at(name, relay(alloc, script, gather), shared(*want));
        checks.same_at(name, gather.bytes(), held);
    }
}

#[test]
fn a_relay_goes_on_after_a_fault(rt: HostRuntime) -> Result<(), Fail> {
    let mut checks = Checks::new(&rt);
    let mut script = three_pieces(rt.alloc())?;
    let mut gather = gather_of(rt.alloc(), &[])?;
    check_relays(&mut checks, rt.alloc(), &mut script, &mut gather);
    drop(gather);
    drop(script);
    Ok(checks.end()?)
}

// Reads of up to a number of bytes from a source, and the bytes that each gives.
fn check_reads<S: Source, R: Print>(
    checks: &mut Checks<'_, R>,
    alloc: Global,
    source: &mut S,
    most: usize,
    reads: &[(&str, &[u8])],
) {
    for (name, want) in reads {
        let read = read_up_to(alloc, source, most);
        checks.same_at(name, read.as_deref(), Ok(want));
    }
}

// A script of the pieces "ab" and "cde".
fn two_pieces(alloc: Global) -> Result<Script, NoMemory> {
    let pieces = vec![in alloc; b"ab".to_vec(alloc)?, b"cde".to_vec(alloc)?]?;
    Script::new(alloc, pieces, Vec::new(alloc))
}

const READS: &[(&str, &[u8])] = &[("two pieces", b"abcd"), ("what is left", b"e")];

#[test]
fn a_read_stops_at_its_bound(rt: HostRuntime) -> Result<(), Fail> {
    let mut checks = Checks::new(&rt);
    let mut script = two_pieces(rt.alloc())?;
    check_reads(&mut checks, rt.alloc(), &mut script, 4, READS);
    drop(script);
    Ok(checks.end()?)
}

#[test]
fn a_reader_is_a_source(rt: HostRuntime) -> Result<(), Fail> {
    let mut checks = Checks::new(&rt);
    let mut source = shared(StdSource::new(b"abc".as_slice()));
    check_reads(&mut checks, rt.alloc(), &mut source, 10, &[("all", b"abc")]);
    checks.same(source.faults(), 0);
    Ok(checks.end()?)
}

// A reader whose line is down.
#[derive(Drop)]
struct Broken;

impl Read for Broken {
    fn read(&mut self, _: &mut [u8]) -> io::Result<usize> {
        Err(io::Error::from(io::ErrorKind::BrokenPipe))
    }
}

#[test]
fn a_failed_read_is_counted(rt: HostRuntime) -> Result<(), Fail> {
    let mut checks = Checks::new(&rt);
    let mut source = StdSource::new(Broken);
    checks.same(source.take(&mut [0; 8]), Err(Failed));
    checks.same(source.faults(), 1);
    Ok(checks.end()?)
}

const UNTIL_FULL: &[(&str, Put)] = &[
    ("as much as there is room", Put::All(b"abc", Ok(()))),
    ("a byte more", Put::Some(b"d", Err(Failed))),
];

#[test]
fn a_writer_is_a_sink_until_it_is_full(rt: HostRuntime) -> Result<(), Fail> {
    let mut checks = Checks::new(&rt);
    let mut room = [0; 3];
    let mut sink = shared(StdSink::new(&mut room[..]));
    check_puts(&mut checks, &mut sink, UNTIL_FULL);
    checks.same_at("one fault", sink.faults(), 1);
    checks.same_at("what was written", room, *b"abc");
    Ok(checks.end()?)
}
