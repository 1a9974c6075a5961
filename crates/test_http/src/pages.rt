//! Pages in bytes.

ghost use Rattle.farm_http.specs.PageTexts.{IsAnswer};

use farm_base::NoMemory;
use farm_fixed::Amount;
use farm_history::{Reply, Rule};
use farm_http::{Allow, Page};
use http_pages::{
    INSUFFICIENT_STORAGE, INSUFFICIENT_STORAGE_LAST, SERVICE_UNAVAILABLE, SERVICE_UNAVAILABLE_LAST,
    page,
};
use std::alloc::Global;
use std::test::Fail;
use test_checks::Checks;

// What is answered.
#[derive(Clone, Copy)]
enum Given {
    // The place of a command.
    Placed(u32),
    // How many entries there are, and what the terminal holds.
    Total(u32, Amount),
    // A refusal by a rule.
    Refused(Rule),
    // A status that names no method.
    Status(u16),
    // 405, and the method that the path has.
    Allow(Allow),
}

// The answer that a row gives; of statuses those that broken requests have.
fn answer_of(given: Given) -> Page
    ensures { IsAnswer result }
{
    match given {
        Given::Placed(place) => Page::Reply(Reply::Placed(place)),
        Given::Total(entries, amount) => Page::Reply(Reply::Total { entries, amount }),
        Given::Refused(rule) => Page::Reply(Reply::Refused(rule)),
        Given::Allow(allow) => Page::Status(405, Some(allow)),
        Given::Status(400) => Page::Status(400, None),
        Given::Status(404) => Page::Status(404, None),
        Given::Status(411) => Page::Status(411, None),
        Given::Status(413) => Page::Status(413, None),
        Given::Status(431) => Page::Status(431, None),
        Given::Status(_) => Page::Status(507, None),
    }
}

// Names, answers, whether they are the last, and their pages.
type Pages = &'static [(&'static str, Given, bool, &'static str)];

const REPLIES: Pages = &[
    (
        "the place of a command",
        Given::Placed(1),
        false,
        "HTTP/1.1 200 OK\r\ncontent-type: application/json\r\ncontent-length: 11\r\n\r\n{\"place\":1}",
    ),
    (
        "the last of a connection",
        Given::Placed(1),
        true,
        "HTTP/1.1 200 OK\r\ncontent-type: application/json\r\ncontent-length: 11\r\nconnection: close\r\n\r\n{\"place\":1}",
    ),
    (
        "a total",
        Given::Total(
            16,
            Amount {
                litres: 12_427_621,
                kg: 10_563_478,
            },
        ),
        false,
        "HTTP/1.1 200 OK\r\ncontent-type: application/json\r\ncontent-length: 46\r\n\r\n{\"entries\":16,\"kg\":10563478,\"litres\":12427621}",
    ),
    (
        "a refusal",
        Given::Refused(Rule::KeyReused(5)),
        false,
        "HTTP/1.1 409 Conflict\r\ncontent-type: application/json\r\ncontent-length: 20\r\n\r\n{\"rule\":1,\"value\":5}",
    ),
];

const STATUSES: Pages = &[
    (
        "a path that takes a POST",
        Given::Allow(Allow::Post),
        false,
        "HTTP/1.1 405 Method Not Allowed\r\ncontent-type: application/json\r\ncontent-length: 13\r\nallow: POST\r\n\r\n{\"error\":405}",
    ),
    (
        "a path that takes a GET, at the end of a connection",
        Given::Allow(Allow::Get),
        true,
        "HTTP/1.1 405 Method Not Allowed\r\ncontent-type: application/json\r\ncontent-length: 13\r\nallow: GET\r\nconnection: close\r\n\r\n{\"error\":405}",
    ),
    (
        "no such path",
        Given::Status(404),
        false,
        "HTTP/1.1 404 Not Found\r\ncontent-type: application/json\r\ncontent-length: 13\r\n\r\n{\"error\":404}",
    ),
    (
        "no request",
        Given::Status(400),
        true,
        "HTTP/1.1 400 Bad Request\r\ncontent-type: application/json\r\ncontent-length: 13\r\nconnection: close\r\n\r\n{\"error\":400}",
    ),
    (
        "no length",
        Given::Status(411),
        true,
        "HTTP/1.1 411 Length Required\r\ncontent-type: application/json\r\ncontent-length: 13\r\nconnection: close\r\n\r\n{\"error\":411}",
    ),
    (
        "a long body",
        Given::Status(413),
        true,
        "HTTP/1.1 413 Payload Too Large\r\ncontent-type: application/json\r\ncontent-length: 13\r\nconnection: close\r\n\r\n{\"error\":413}",
    ),
    (
        "a long head",
        Given::Status(431),
        true,
        "HTTP/1.1 431 Request Header Fields Too Large\r\ncontent-type: application/json\r\ncontent-length: 13\r\nconnection: close\r\n\r\n{\"error\":431}",
    ),
];

// Appends to a buffer the page of a row.
fn append(alloc: Global, given: Given, last: bool, out: &mut Vec<u8>) -> Result<(), NoMemory> {
    page(alloc, &answer_of(given), last, out)
}

// The page of each row, in a buffer that a row before leaves empty.
fn check_pages<R: Print>(
    checks: &mut Checks<'_, R>,
    alloc: Global,
    out: &mut Vec<u8>,
    rows: Pages,
) {
    for (name, given, last, want) in rows {
        out.clear();
        checks.same_at(name, append(alloc, *given, *last, out), Ok(()));
        checks.same_at(name, str::from_utf8(out), Ok(*want));
    }
}

#[test]
fn a_reply_has_its_page(rt: HostRuntime) -> Result<(), Fail> {
    let mut checks = Checks::new(&rt);
    let mut out = Vec::new(rt.alloc());
    check_pages(&mut checks, rt.alloc(), &mut out, REPLIES);
    drop(out);
    Ok(checks.end()?)
}

#[test]
fn a_status_has_its_page(rt: HostRuntime) -> Result<(), Fail> {
    let mut checks = Checks::new(&rt);
    let mut out = Vec::new(rt.alloc());
    check_pages(&mut checks, rt.alloc(), &mut out, STATUSES);
    drop(out);
    Ok(checks.end()?)
}

#[test]
fn a_page_is_appended(rt: HostRuntime) -> Result<(), Fail> {
    let mut checks = Checks::new(&rt);
    let mut out = Vec::from_slice(rt.alloc(), b"before ")?;
    checks.same(
        append(rt.alloc(), Given::Status(404), false, &mut out),
        Ok(()),
    );
    checks.same(out.get(..15), Some(b"before HTTP/1.1".as_slice()));
    drop(out);
    Ok(checks.end()?)
}

// The pages that take no memory.
const CONSTANTS: &[(&str, &[u8], &str)] = &[
    (
        "a fault of the disk",
        SERVICE_UNAVAILABLE,
        "HTTP/1.1 503 Service Unavailable\r\ncontent-type: application/json\r\ncontent-length: 13\r\n\r\n{\"error\":503}",
    ),
    (
        "a fault of the disk, at the end of a connection",
        SERVICE_UNAVAILABLE_LAST,
        "HTTP/1.1 503 Service Unavailable\r\ncontent-type: application/json\r\ncontent-length: 13\r\nconnection: close\r\n\r\n{\"error\":503}",
    ),
    (
        "no memory",
        INSUFFICIENT_STORAGE,
        "HTTP/1.1 507 Insufficient Storage\r\ncontent-type: application/json\r\ncontent-length: 13\r\n\r\n{\"error\":507}",
    ),
    (
        "no memory, at the end of a connection",
        INSUFFICIENT_STORAGE_LAST,
        "HTTP/1.1 507 Insufficient Storage\r\ncontent-type: application/json\r\ncontent-length: 13\r\nconnection: close\r\n\r\n{\"error\":507}",
    ),
];

#[test]
fn four_pages_are_there_without_memory(rt: HostRuntime) -> Result<(), Fail> {
    let mut checks = Checks::new(&rt);
    for (name, bytes, want) in CONSTANTS {
        checks.same_at(name, *bytes, want.as_bytes());
    }
    Ok(checks.end()?)
}
