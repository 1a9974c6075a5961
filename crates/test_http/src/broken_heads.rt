//! Bytes that are no request yet, and bytes that never become one.

use http_heads::{Front, front_of};
use std::test::Fail;
use test_checks::Checks;

// Names, bytes, and the status that says how they are broken.
type Broken = &'static [(&'static str, &'static [u8], u16)];

// What HTTP/1.1 refuses.
const GRAMMAR: Broken = &[
    ("a line that is no request", b"junk\n", 400),
    (
        "the hello of TLS",
        b"\x16\x03\x01\x02\x00\x01\x00\x01\xfc\x03\x03",
        400,
    ),
    (
        "the preface of HTTP/2",
        b"PRI * HTTP/2.0\r\n\r\nSM\r\n\r\n",
        400,
    ),
    ("a version to come", b"GET /total HTTP/1.2\r\n\r\n", 400),
    (
        "a NUL in a value",
        b"GET /total HTTP/1.1\r\na: b\0c\r\n\r\n",
        400,
    ),
    (
        "a blank before a colon",
        b"GET /total HTTP/1.1\r\na : b\r\n\r\n",
        400,
    ),
    (
        "a field line without a colon",
        b"GET /total HTTP/1.1\r\nab\r\n\r\n",
        400,
    ),
    (
        "a value over two lines",
        b"GET /total HTTP/1.1\r\na: b\r\n c\r\n\r\n",
        400,
    ),
    (
        "a carriage return in a value",
        b"GET /total HTTP/1.1\r\na: b\rc\r\n\r\n",
        400,
    ),
];

// What the lengths of bodies say.
const LENGTHS: Broken = &[
    (
        "a length that is no number, before the head ends",
        b"POST /gauge HTTP/1.1\r\ncontent-length: x\r\n",
        400,
    ),
    (
        "two lengths, before the head ends",
        b"POST /stop HTTP/1.1\r\ncontent-length: 21\r\nContent-Length: 21\r\n",
        400,
    ),
    (
        "eleven digits",
        b"POST /stop HTTP/1.1\r\ncontent-length: 00000000021\r\n\r\n",
        400,
    ),
    (
        "an empty length",
        b"POST /stop HTTP/1.1\r\ncontent-length: \r\n\r\n",
        400,
    ),
    (
        "a length with a sign",
        b"POST /stop HTTP/1.1\r\ncontent-length: +21\r\n\r\n",
        400,
    ),
    (
        "two lengths in one field",
        b"POST /stop HTTP/1.1\r\ncontent-length: 21, 21\r\n\r\n",
        400,
    ),
    (
        "a POST without a length",
        b"POST /stop HTTP/1.1\r\n\r\n{\"account\":1,\"key\":1}",
        411,
    ),
    (
        "chunks",
        b"POST /stop HTTP/1.1\r\ntransfer-encoding: chunked\r\n\r\n",
        411,
    ),
    (
        "chunks and a length",
        b"POST /stop HTTP/1.1\r\nTransfer-Encoding: chunked\r\ncontent-length: 65537\r\n\r\n",
        411,
    ),
    (
        "a length of 65,537",
        b"POST /stop HTTP/1.1\r\ncontent-length: 65537\r\n\r\n",
        413,
    ),
    (
        "the greatest length",
        b"GET /total HTTP/1.1\r\ncontent-length: 9999999999\r\n\r\n",
        413,
    ),
];

// Each row's bytes are broken as it says.
fn check_broken<R: Print>(checks: &mut Checks<'_, R>, rows: Broken) {
    for (name, bytes, status) in rows {
        checks.same_at(name, front_of(bytes), Front::Broken(*status));
    }
}

#[test]
fn what_is_no_http_is_400(rt: HostRuntime) -> Result<(), Fail> {
    let mut checks = Checks::new(&rt);
    check_broken(&mut checks, GRAMMAR);
    Ok(checks.end()?)
}

#[test]
fn a_body_has_one_length_within_the_limit(rt: HostRuntime) -> Result<(), Fail> {
    let mut checks = Checks::new(&rt);
    check_broken(&mut checks, LENGTHS);
    Ok(checks.end()?)
}

// Names, and bytes that more may follow.
const OPEN: &[(&str, &[u8])] = &[
    ("no byte", b""),
    ("an empty line", b"\r\n"),
    ("a part of a method", b"GE"),
    ("a request line", b"GET /total HTTP/1.1\r\n"),
    ("a POST line", b"POST /stop HTTP/1.1\r\n"),
    (
        "chunks, before the head ends",
        b"POST /stop HTTP/1.1\r\ntransfer-encoding: chunked\r\n",
    ),
    (
        "a length of 65,537, before the head ends",
        b"POST /stop HTTP/1.1\r\ncontent-length: 65537\r\n",
    ),
    (
        "a length of 65,536 without its body",
        b"POST /stop HTTP/1.1\r\ncontent-length: 65536\r\n\r\n",
    ),
];

#[test]
fn a_head_that_is_not_whole_needs_more(rt: HostRuntime) -> Result<(), Fail> {
    let mut checks = Checks::new(&rt);
    for (name, bytes) in OPEN {
        checks.same_at(name, front_of(bytes), Front::Need);
    }
    Ok(checks.end()?)
}
