//! What a connection's bytes ask: look-ups, and what is no request.

use farm_base::NoMemory;
use farm_history::{Ask, Query};
use farm_http::Allow;
use http_requests::{Asked, Heard, Routes, hear};
use std::alloc::Global;
use std::test::Fail;
use test_checks::{Checks, shared};

// What is heard that asks for no command.
#[derive(Clone, Copy)]
enum Wanted {
    // More bytes are needed.
    Need,
    // The status of broken bytes.
    Broken(u16),
    // The status of a request that asks nothing, and the method that the path has.
    Bad(u16, Option<Allow>),
    // A look-up.
    Look(Query),
}

// What is heard of a request of this length.
fn heard_of(wanted: Wanted, last: bool, used: usize) -> Heard {
    let asked = match wanted {
        Wanted::Need => return Heard::Need,
        Wanted::Broken(status) => return Heard::Broken(status),
        Wanted::Bad(status, allow) => Asked::Bad(status, allow),
        Wanted::Look(query) => Asked::Ask(Ask::Look(query)),
    };
    Heard::Got { asked, last, used }
}

// Names, requests, whether each is the last, and what is heard.
type Requests = &'static [(&'static str, &'static str, bool, Wanted)];

// What the routes hear of each row's bytes, which are one request.
fn check_requests<R: Print>(
    checks: &mut Checks<'_, R>,
    alloc: Global,
    routes: &Routes,
    rows: Requests,
) {
    for (name, text, last, wanted) in rows {
        let heard = shared(routes.hear(alloc, text.as_bytes()));
        checks.same_at(name, heard, heard_of(*wanted, *last, text.len()));
    }
}

const LOOKS: Requests = &[
    (
        "the total",
        "GET /total HTTP/1.1\r\n\r\n",
        false,
        Wanted::Look(Query::Total),
    ),
    (
        "the total with a query",
        "GET /total?x=1 HTTP/1.1\r\n\r\n",
        false,
        Wanted::Look(Query::Total),
    ),
    (
        "the total at the end of a connection",
        "GET /total HTTP/1.1\r\nConnection: close\r\n\r\n",
        true,
        Wanted::Look(Query::Total),
    ),
    (
        "a body that isn't looked at",
        "GET /total HTTP/1.1\r\ncontent-length: 4\r\n\r\njunk",
        false,
        Wanted::Look(Query::Total),
    ),
    (
        "the greatest tank",
        "GET /stock/65535 HTTP/1.1\r\n\r\n",
        false,
        Wanted::Look(Query::Stock(65_535)),
    ),
    (
        "a tank of ten digits",
        "GET /stock/0000000101 HTTP/1.1\r\n\r\n",
        false,
        Wanted::Look(Query::Stock(101)),
    ),
    (
        "the greatest place",
        "GET /ticket/4294967295 HTTP/1.1\r\n\r\n",
        false,
        Wanted::Look(Query::Ticket(4_294_967_295)),
    ),
];

const NO_PATH: Requests = &[
    (
        "the form for a proxy",
        "GET http://host/total HTTP/1.1\r\n\r\n",
        false,
        Wanted::Bad(404, None),
    ),
    (
        "no path",
        "OPTIONS * HTTP/1.1\r\n\r\n",
        false,
        Wanted::Bad(404, None),
    ),
    (
        "no tank",
        "GET /stock/ HTTP/1.1\r\n\r\n",
        false,
        Wanted::Bad(404, None),
    ),
    (
        "a digit in percents",
        "GET /stock/1%30 HTTP/1.1\r\n\r\n",
        false,
        Wanted::Bad(404, None),
    ),
    (
        "a tank that is too large",
        "GET /stock/65536 HTTP/1.1\r\n\r\n",
        false,
        Wanted::Bad(404, None),
    ),
    (
        "a tank of eleven digits",
        "GET /stock/00000000101 HTTP/1.1\r\n\r\n",
        false,
        Wanted::Bad(404, None),
    ),
    (
        "a place that is too large",
        "GET /ticket/4294967296 HTTP/1.1\r\n\r\n",
        false,
        Wanted::Bad(404, None),
    ),
    (
        "a path in capitals",
        "GET /Total HTTP/1.1\r\n\r\n",
        false,
        Wanted::Bad(404, None),
    ),
    (
        "the path is looked at before the method",
        "POST /stock/65536 HTTP/1.1\r\ncontent-length: 0\r\n\r\n",
        false,
        Wanted::Bad(404, None),
    ),
];

const OTHER_METHODS: Requests = &[
    (
        "a GET of a command",
        "GET /gauge HTTP/1.1\r\n\r\n",
        false,
        Wanted::Bad(405, Some(Allow::Post)),
    ),
    (
        "a POST of a look-up",
        "POST /total HTTP/1.1\r\ncontent-length: 0\r\n\r\n",
        false,
        Wanted::Bad(405, Some(Allow::Get)),
    ),
    (
        "a method in small letters",
        "get /stock/101 HTTP/1.1\r\n\r\n",
        false,
        Wanted::Bad(405, Some(Allow::Get)),
    ),
    (
        "a HEAD",
        "HEAD /total HTTP/1.1\r\n\r\n",
        true,
        Wanted::Bad(405, Some(Allow::Get)),
    ),
    (
        "the method is looked at before the body",
        "PUT /stop HTTP/1.1\r\ncontent-length: 4\r\n\r\njunk",
        false,
        Wanted::Bad(405, Some(Allow::Post)),
    ),
];

const NO_REQUEST: Requests = &[
    (
        "a body that is no JSON",
        "POST /stop HTTP/1.1\r\ncontent-length: 4\r\n\r\njunk",
        false,
        Wanted::Bad(400, None),
    ),
    (
        "a body that has no byte",
        "POST /stop HTTP/1.1\r\ncontent-length: 0\r\n\r\n",
        false,
        Wanted::Bad(400, None),
    ),
    (
        "a body that isn't whole",
        "POST /stop HTTP/1.1\r\ncontent-length: 21\r\n\r\n{\"account\":1,\"key\":1",
        false,
        Wanted::Need,
    ),
    ("no HTTP", "junk\n", false, Wanted::Broken(400)),
    (
        "a POST without a length",
        "POST /stop HTTP/1.1\r\n\r\n",
        false,
        Wanted::Broken(411),
    ),
    (
        "a length of 65,537",
        "POST /stop HTTP/1.1\r\ncontent-length: 65537\r\n\r\n",
        false,
        Wanted::Broken(413),
    ),
];

/// The routes of the desk.
pub(crate) fn routes_of(alloc: Global) -> Result<Routes, NoMemory> {
    Ok(shared(Routes::new(alloc)?))
}

#[test]
fn a_path_and_a_method_say_what_is_asked(rt: HostRuntime) -> Result<(), Fail> {
    let mut checks = Checks::new(&rt);
    let routes = routes_of(rt.alloc())?;
    for rows in [LOOKS, NO_PATH, OTHER_METHODS, NO_REQUEST] {
        check_requests(&mut checks, rt.alloc(), &routes, rows);
    }
    drop(routes);
    Ok(checks.end()?)
}

const TWO: &[u8] = b"GET /total HTTP/1.1\r\n\r\nGET /stock/101 HTTP/1.1\r\n\r\n";

#[test]
fn two_requests_in_one_piece_are_heard_one_after_another(rt: HostRuntime) -> Result<(), Fail> {
    let mut checks = Checks::new(&rt);
    let total = heard_of(Wanted::Look(Query::Total), false, 23);
    checks.same_at("the first", hear(rt.alloc(), TWO), total);
    let rest = TWO.get(23..).unwrap_or(&[]);
    let stock = heard_of(Wanted::Look(Query::Stock(101)), false, 27);
    checks.same_at("the second", hear(rt.alloc(), rest), stock);
    Ok(checks.end()?)
}
