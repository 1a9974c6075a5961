//! Whole requests at the front of bytes, and heads that are made of a repeated piece.

use http_heads::{Front, RequestFront, front_of};
use std::alloc::{AllocError, Global};
use std::test::Fail;
use test_checks::{Checks, shared};

// A request: its method, its target, whether it is the last, and the lengths of its head and its body.
type Whole = (&'static str, &'static str, bool, usize, usize);

// Names, bytes, and the request at their front.
type Wholes = &'static [(&'static str, &'static str, Whole)];

const WHOLES: Wholes = &[
    (
        "a GET without a length has an empty body",
        "GET /total HTTP/1.1\r\n\r\n",
        ("GET", "/total", false, 23, 0),
    ),
    (
        "a POST and its body",
        "POST /stop HTTP/1.1\r\ncontent-length: 21\r\n\r\n{\"account\":1,\"key\":1}",
        ("POST", "/stop", false, 43, 21),
    ),
    (
        "a POST of length 0",
        "POST /stop HTTP/1.1\r\ncontent-length: 0\r\n\r\n",
        ("POST", "/stop", false, 42, 0),
    ),
    (
        "a GET has a body too",
        "GET /total HTTP/1.1\r\ncontent-length: 2\r\n\r\n{}",
        ("GET", "/total", false, 42, 2),
    ),
    (
        "a length of ten digits",
        "GET /total HTTP/1.1\r\ncontent-length: 0000000002\r\n\r\n{}",
        ("GET", "/total", false, 51, 2),
    ),
    (
        "a field name in any case, blanks around its value",
        "GET /total HTTP/1.1\r\nCONTENT-Length:\t 2 \r\n\r\n{}",
        ("GET", "/total", false, 44, 2),
    ),
    (
        "the first of two requests in one piece",
        "GET /total HTTP/1.1\r\n\r\nGET /stock/101 HTTP/1.1\r\n\r\n",
        ("GET", "/total", false, 23, 0),
    ),
    (
        "empty lines before it",
        "\r\n\r\nGET /total HTTP/1.1\r\n\r\n",
        ("GET", "/total", false, 27, 0),
    ),
    (
        "lines that end without a carriage return",
        "GET /total HTTP/1.1\n\n",
        ("GET", "/total", false, 21, 0),
    ),
    (
        "a target with a query",
        "GET /total?x=1 HTTP/1.1\r\n\r\n",
        ("GET", "/total?x=1", false, 27, 0),
    ),
    (
        "a target that is no path",
        "OPTIONS * HTTP/1.1\r\n\r\n",
        ("OPTIONS", "*", false, 22, 0),
    ),
    (
        "HTTP/1.0 is the last",
        "GET /total HTTP/1.0\r\n\r\n",
        ("GET", "/total", true, 23, 0),
    ),
    (
        "HTTP/1.0 is the last, though it asks for more",
        "GET /total HTTP/1.0\r\nConnection: keep-alive\r\n\r\n",
        ("GET", "/total", true, 47, 0),
    ),
    (
        "close",
        "GET /total HTTP/1.1\r\nConnection: close\r\n\r\n",
        ("GET", "/total", true, 42, 0),
    ),
    (
        "close in another case",
        "GET /total HTTP/1.1\r\nCONNECTION: ClOsE\r\n\r\n",
        ("GET", "/total", true, 42, 0),
    ),
    (
        "close after a field with another value",
        "GET /total HTTP/1.1\r\nConnection: keep-alive\r\nConnection: close\r\n\r\n",
        ("GET", "/total", true, 66, 0),
    ),
    (
        "close as one of two words isn't the last",
        "GET /total HTTP/1.1\r\nConnection: keep-alive, close\r\n\r\n",
        ("GET", "/total", false, 54, 0),
    ),
    (
        "a HEAD is the last",
        "HEAD /total HTTP/1.1\r\n\r\n",
        ("HEAD", "/total", true, 24, 0),
    ),
];

// The front that a request is.
fn front((method, target, last, head, body): Whole) -> Front<'static> {
    Front::Whole(RequestFront {
        method: method.as_bytes(),
        target: target.as_bytes(),
        last,
        head,
        body,
    })
}

// The front of each row's bytes is the row's request.
fn check_wholes<R: Print>(checks: &mut Checks<'_, R>, rows: Wholes) {
    for (name, text, want) in rows {
        checks.same_at(name, shared(front_of(text.as_bytes())), front(*want));
    }
}

#[test]
fn a_whole_request_is_read(rt: HostRuntime) -> Result<(), Fail> {
    let mut checks = Checks::new(&rt);
    check_wholes(&mut checks, WHOLES);
    Ok(checks.end()?)
}

const STOP: &[u8] = b"POST /stop HTTP/1.1\r\ncontent-length: 21\r\n\r\n{\"account\":1,\"key\":1}";

#[test]
fn a_request_cut_at_any_byte_needs_more(rt: HostRuntime) -> Result<(), Fail> {
    let mut checks = Checks::new(&rt);
    checks.same_at("how many bytes it has", STOP.len(), 64);
    for count in 0..64 {
        let bytes = STOP.get(..count).unwrap_or(STOP);
        checks.same_at(count, front_of(bytes), Front::Need);
    }
    Ok(checks.end()?)
}

// Bytes made of a repeated piece: those before it, the piece, how often it comes, and those after it.
type Made = (&'static str, &'static str, usize, &'static str);

// Names, bytes that are made, and what their front is; a request where the status is 200.
type Mades = &'static [(&'static str, Made, u16, Whole)];

// No request.
const NONE: Whole = ("", "", false, 0, 0);

// More bytes are needed.
const NEED: u16 = 100;

const WHOLE: u16 = 200;

const FIELDS: Mades = &[
    (
        "64 lines after the first of no request",
        ("", "junk\n", 65, ""),
        400,
        NONE,
    ),
    (
        "65 lines after the first of no request",
        ("", "junk\n", 66, ""),
        431,
        NONE,
    ),
    ("70 lines of no request", ("", "junk\n", 70, ""), 431, NONE),
    (
        "64 fields",
        ("GET /total HTTP/1.1\r\n", "a: b\r\n", 64, "\r\n"),
        WHOLE,
        ("GET", "/total", false, 407, 0),
    ),
    (
        "65 fields",
        ("GET /total HTTP/1.1\r\n", "a: b\r\n", 65, "\r\n"),
        431,
        NONE,
    ),
    (
        "65 fields of which a length is bad",
        (
            "GET /total HTTP/1.1\r\ncontent-length: x\r\n",
            "a: b\r\n",
            64,
            "",
        ),
        431,
        NONE,
    ),
];

const LENGTHS: Mades = &[
    (
        "16,383 bytes without an end",
        ("GET /", "a", 16_378, ""),
        NEED,
        NONE,
    ),
    (
        "16,384 bytes without an end",
        ("GET /", "a", 16_379, ""),
        431,
        NONE,
    ),
    (
        "a head of 16,384 bytes",
        ("GET /total HTTP/1.1\r\na: ", "b", 16_356, "\r\n\r\n"),
        WHOLE,
        ("GET", "/total", false, 16_384, 0),
    ),
    (
        "a head of 16,385 bytes",
        ("GET /total HTTP/1.1\r\na: ", "b", 16_357, "\r\n\r\n"),
        431,
        NONE,
    ),
    (
        "a body of 65,536 bytes",
        (
            "POST /stop HTTP/1.1\r\ncontent-length: 65536\r\n\r\n",
            " ",
            65_536,
            "",
        ),
        WHOLE,
        ("POST", "/stop", false, 46, 65_536),
    ),
    (
        "one byte less",
        (
            "POST /stop HTTP/1.1\r\ncontent-length: 65536\r\n\r\n",
            " ",
            65_535,
            "",
        ),
        NEED,
        NONE,
    ),
];

// The bytes that are made of a repeated piece.
fn made(alloc: Global, (before, piece, times, after): Made) -> Result<String, AllocError> {
    let pieces = piece.repeat(alloc, times)?;
    let text = format!(in alloc; "{before}{pieces}{after}");
    drop(pieces);
    text
}

// What a row says that the front is.
fn made_front(status: u16, whole: Whole) -> Front<'static> {
    match status {
        NEED => Front::Need,
        WHOLE => front(whole),
        _ => Front::Broken(status),
    }
}

// The front of the bytes that each row makes is what the row says.
fn check_mades<R: Print>(
    checks: &mut Checks<'_, R>,
    alloc: Global,
    rows: Mades,
) -> Result<(), AllocError> {
    for (name, bytes, status, whole) in rows {
        let text = made(alloc, *bytes)?;
        let want = made_front(*status, *whole);
        checks.same_at(name, front_of(text.as_bytes()), want);
        drop(text);
    }
    Ok(())
}

#[test]
fn a_head_has_up_to_64_fields(rt: HostRuntime) -> Result<(), Fail> {
    let mut checks = Checks::new(&rt);
    check_mades(&mut checks, rt.alloc(), FIELDS)?;
    Ok(checks.end()?)
}

#[test]
fn a_head_has_up_to_16384_bytes_and_a_body_65536(rt: HostRuntime) -> Result<(), Fail> {
    let mut checks = Checks::new(&rt);
    check_mades(&mut checks, rt.alloc(), LENGTHS)?;
    Ok(checks.end()?)
}
