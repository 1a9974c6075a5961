//! What a POST asks: the command of its path, or nothing.

use crate::bodies::{Bodies, ENDED, MEASURED, MOVED};
use crate::requests::routes_of;
use farm_history::{Ask, Command};
use http_requests::{Asked, Heard, Routes, hear};
use std::alloc::{AllocError, Global};
use std::test::Fail;
use test_checks::Checks;

// A command that is asked for: its account, its key, what it is, whether it is the last, and how many bytes it has.
type Done<'a> = (u32, u64, &'a Command, bool, usize);

// The command that is asked for.
fn done_of(heard: &Heard) -> Result<Done<'_>, &Heard> {
    match heard {
        Heard::Got {
            asked: Asked::Ask(Ask::Do { account, key, cmd }),
            last,
            used,
        } => Ok((*account, *key, cmd, *last, *used)),
        _ => Err(heard),
    }
}

// A POST of a body to the path of a word.
fn post(alloc: Global, word: &str, body: &str) -> Result<String, AllocError> {
    let length = body.len();
    format!(in alloc; "POST /{word} HTTP/1.1\r\ncontent-length: {length}\r\n\r\n{body}")
}

// A POST of a body asks for its path's command under account 1 and key 3.
fn check_post<R: Print>(
    checks: &mut Checks<'_, R>,
    alloc: Global,
    routes: &Routes,
    (word, body, want): (&str, &str, &Command),
) -> Result<(), AllocError> {
    let text = post(alloc, word, body)?;
    let heard = routes.hear(alloc, text.as_bytes());
    checks.same_at(body, done_of(&heard), Ok((1, 3, want, false, text.len())));
    drop((heard, text));
    Ok(())
}

// A POST of each row's body asks for the row's command.
fn check_posts<R: Print>(
    checks: &mut Checks<'_, R>,
    alloc: Global,
    routes: &Routes,
    rows: Bodies,
) -> Result<(), AllocError> {
    for (word, body, want) in rows {
        check_post(checks, alloc, routes, (*word, *body, want))?;
    }
    Ok(())
}

// The desk refuses it, and not its path.
const ABOVE_ITS_RANGE: Bodies = &[(
    "gauge",
    r#"{"account":1,"key":3,"tank":101,"level":50001,"water":0,"temperature":1500,"ambient":1500}"#,
    Command::Gauge {
        tank: 101,
        level: 50_001,
        water: 0,
        temperature: 1_500,
        ambient: 1_500,
    },
)];

// A POST of each body asks for its path's command.
fn check_commands<R: Print>(
    checks: &mut Checks<'_, R>,
    alloc: Global,
    routes: &Routes,
) -> Result<(), AllocError> {
    for rows in [MEASURED, MOVED, ENDED, ABOVE_ITS_RANGE] {
        check_posts(checks, alloc, routes, rows)?;
    }
    Ok(())
}

#[test]
fn a_post_asks_for_its_paths_command(rt: HostRuntime) -> Result<(), Fail> {
    let mut checks = Checks::new(&rt);
    let routes = routes_of(rt.alloc())?;
    let commands = check_commands(&mut checks, rt.alloc(), &routes);
    drop(routes);
    commands?;
    Ok(checks.end()?)
}

// As many brackets that open and that close.
fn brackets(alloc: Global, lists: usize) -> Result<(String, String), AllocError> {
    let open = "[".repeat(alloc, lists)?;
    match "]".repeat(alloc, lists) {
        Ok(close) => Ok((open, close)),
        Err(fault) => {
            drop(open);
            Err(fault)
        }
    }
}

// A Stop with a member that is passed over, in which this many lists stand one in another.
fn nested(alloc: Global, lists: usize) -> Result<String, AllocError> {
    let (open, close) = brackets(alloc, lists)?;
    let text = format!(in alloc; "{{\"a\":{open}{close},\"account\":1,\"key\":3}}");
    drop((open, close));
    text
}

// What a POST of a body to the path of a word asks, if it is heard.
fn asked_of(alloc: Global, word: &str, body: &str) -> Result<Option<Asked>, AllocError> {
    let text = post(alloc, word, body)?;
    let heard = hear(alloc, text.as_bytes());
    drop(text);
    match heard {
        Heard::Got { asked, .. } => Ok(Some(asked)),
        other => {
            drop(other);
            Ok(None)
        }
    }
}

// What a Stop asks that nests this deep, its object counted.
fn nested_asked(alloc: Global, depth: usize) -> Result<Option<Asked>, AllocError> {
    let body = nested(alloc, depth.saturating_sub(1))?;
    let asked = asked_of(alloc, "stop", &body);
    drop(body);
    asked
}

// A level that no number of its form is.
const TOO_LARGE: &str =
    r#"{"account":1,"key":3,"tank":101,"level":9223372036854775808,"water":0,"temperature":1500,"ambient":1500}"#;

// A Stop of account 1 under key 3.
fn stop() -> Asked {
    Asked::Ask(Ask::Do {
        account: 1,
        key: 3,
        cmd: Command::Stop,
    })
}

const NOTHING: Asked = Asked::Bad(400, None);

#[test]
fn a_body_beyond_its_limits_asks_for_nothing(rt: HostRuntime) -> Result<(), Fail> {
    let mut checks = Checks::new(&rt);
    checks.same_at("127 deep", nested_asked(rt.alloc(), 127)?, Some(stop()));
    checks.same_at("128 deep", nested_asked(rt.alloc(), 128)?, Some(NOTHING));
    let level = asked_of(rt.alloc(), "gauge", TOO_LARGE)?;
    checks.same_at("a level that is too large", level, Some(NOTHING));
    Ok(checks.end()?)
}
