//! The lines of a source in pieces.

use crate::running::source_of;
use batch_lines::{Cut, LineReader};
use farm_base::NoMemory;
use farm_ports::{Failed, Script};
use std::alloc::Global;
use std::test::Fail;
use test_checks::{Checks, shared};

// A call of a reader, and what it finds.
#[derive(Clone, Copy)]
enum Call<'a> {
    // How the next line is cut, and the line, unless it is too long.
    Read(Cut, Option<&'a [u8]>),
    // Whether there is more.
    More(Result<bool, Failed>),
    // Whether the next line is in hand whole.
    Holds(bool),
}

// How the next line is cut, and the line that the reader has then.
fn next_line<'r>(reader: &'r mut LineReader, input: &mut Script) -> (Cut, Option<&'r [u8]>) {
    let cut = reader.read(input);
    match cut {
        Cut::Line | Cut::Last => (cut, reader.line()),
        _ => (cut, None),
    }
}

// One call of a reader finds what its row says.
fn check_call<R: Print>(
    checks: &mut Checks<'_, R>,
    reader: &mut LineReader,
    input: &mut Script,
    (name, call): (&str, Call<'_>),
) {
    match call {
        Call::Read(cut, line) => checks.same_at(name, next_line(reader, input), (cut, line)),
        Call::More(want) => checks.same_at(name, reader.has_more(input), want),
        Call::Holds(want) => checks.same_at(name, reader.holds_line(), want),
    }
}

// Calls of a reader find what their rows say.
fn check_calls<R: Print>(
    checks: &mut Checks<'_, R>,
    reader: &mut LineReader,
    input: &mut Script,
    calls: &[(&str, Call<'_>)],
) {
    for call in calls {
        check_call(checks, reader, input, *call);
    }
}

// Calls of a new reader of a source.
fn check_source<R: Print>(
    checks: &mut Checks<'_, R>,
    alloc: Global,
    input: &mut Script,
    calls: &[(&str, Call<'_>)],
) -> Result<(), NoMemory> {
    let mut reader = shared(LineReader::new(alloc)?);
    check_calls(checks, &mut reader, input, calls);
    drop(reader);
    Ok(())
}

// Calls of a reader of a source of these pieces, whose takes of these numbers fail.
fn check_lines<R: Print>(
    checks: &mut Checks<'_, R>,
    alloc: Global,
    pieces: &[&[u8]],
    fails: &[u64],
    calls: &[(&str, Call<'_>)],
) -> Result<(), NoMemory> {
    let fails = fails.to_vec(alloc)?;
    let mut input = source_of(alloc, pieces, fails)?;
    let checked = check_source(checks, alloc, &mut input, calls);
    drop(input);
    checked
}

const ACROSS_PIECES: &[(&str, Call<'static>)] = &[
    ("a line in two pieces", Call::Read(Cut::Line, Some(b"abc"))),
    ("a line without a byte", Call::Read(Cut::Line, Some(b""))),
    ("a line in the next two", Call::Read(Cut::Line, Some(b"de"))),
    ("the last line", Call::Read(Cut::Last, Some(b"f"))),
    ("the end", Call::Read(Cut::End, None)),
];

#[test]
fn lines_go_on_across_pieces(rt: HostRuntime) -> Result<(), Fail> {
    let mut checks = Checks::new(&rt);
    let pieces: [&[u8]; 3] = [b"ab", b"c\n\nd", b"e\nf"];
    check_lines(&mut checks, rt.alloc(), &pieces, &[], ACROSS_PIECES)?;
    Ok(checks.end()?)
}

const ONE_LINE: &[(&str, Call<'static>)] = &[
    ("the line", Call::Read(Cut::Line, Some(b"a"))),
    ("the end", Call::Read(Cut::End, None)),
];

#[test]
fn no_line_is_after_the_last_line_feed(rt: HostRuntime) -> Result<(), Fail> {
    let mut checks = Checks::new(&rt);
    check_lines(&mut checks, rt.alloc(), &[b"a\n"], &[], ONE_LINE)?;
    Ok(checks.end()?)
}

// Reads of a longest line, one of a byte more, and a short one.
fn check_longest<R: Print>(
    checks: &mut Checks<'_, R>,
    alloc: Global,
    longest: &[u8],
) -> Result<(), NoMemory> {
    let calls = [
        ("65,536 bytes", Call::Read(Cut::Line, Some(longest))),
        ("65,537 bytes", Call::Read(Cut::Line, None)),
        ("the next line", Call::Read(Cut::Line, Some(b"y"))),
    ];
    let pieces = [longest, b"\n", longest, b"x\ny\n"];
    check_lines(checks, alloc, &pieces, &[], &calls)
}

#[test]
fn a_line_of_65_537_bytes_is_passed_over(rt: HostRuntime) -> Result<(), Fail> {
    let mut checks = Checks::new(&rt);
    let longest = vec![in rt.alloc(); b'x'; 65_536]?;
    let checked = check_longest(&mut checks, rt.alloc(), &longest);
    drop(longest);
    checked?;
    Ok(checks.end()?)
}

const BEFORE_A_FAULT: &[(&str, Call<'static>)] = &[
    ("the line", Call::Read(Cut::Line, Some(b"a"))),
    ("a take that fails", Call::Read(Cut::Failed, None)),
];

#[test]
fn no_take_runs_ahead_of_a_line(rt: HostRuntime) -> Result<(), Fail> {
    let mut checks = Checks::new(&rt);
    let pieces: [&[u8]; 2] = [b"a\n", b"b"];
    check_lines(&mut checks, rt.alloc(), &pieces, &[2], BEFORE_A_FAULT)?;
    Ok(checks.end()?)
}

const IN_HAND: &[(&str, Call<'static>)] = &[
    ("before the first take", Call::Holds(false)),
    ("the first line", Call::Read(Cut::Line, Some(b"a"))),
    ("the second line is in hand", Call::Holds(true)),
    ("the second line", Call::Read(Cut::Line, Some(b""))),
    ("a part of a line", Call::Holds(false)),
    ("the last line", Call::Read(Cut::Last, Some(b"b"))),
    ("at the end", Call::Holds(false)),
];

#[test]
fn a_line_is_in_hand_with_its_line_feed(rt: HostRuntime) -> Result<(), Fail> {
    let mut checks = Checks::new(&rt);
    check_lines(&mut checks, rt.alloc(), &[b"a\n\nb"], &[], IN_HAND)?;
    Ok(checks.end()?)
}

const LOOKS: &[(&str, Call<'static>)] = &[
    ("a look that fails", Call::More(Err(Failed))),
    ("a look that finds the byte", Call::More(Ok(true))),
    ("another one", Call::More(Ok(true))),
    ("the line of that byte", Call::Read(Cut::Last, Some(b"a"))),
    ("a look at the end", Call::More(Ok(false))),
];

#[test]
fn a_look_keeps_the_byte_that_it_finds(rt: HostRuntime) -> Result<(), Fail> {
    let mut checks = Checks::new(&rt);
    check_lines(&mut checks, rt.alloc(), &[b"a"], &[1], LOOKS)?;
    Ok(checks.end()?)
}
