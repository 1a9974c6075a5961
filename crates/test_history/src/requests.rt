//! Lines of a batch as requests, lines that aren't, and the bodies of answers.

ghost use Rattle.farm_http.specs.PageTexts.{IsAnswer};

use crate::line_rows::{ENDS, Lines, OPENINGS, READINGS, SETTLEMENTS, STOPS};
use farm_base::NoMemory;
use farm_history::{Ask, Command, Query, Reply, Rule};
use farm_http::{LineAsked, Page, body, line};
use std::alloc::{AllocError, Global};
use std::test::Fail;
use test_checks::{Checks, shared};

// The account, the key and the command of a line that asks to do something.
fn done_of(asked: &LineAsked) -> Result<(u32, u64, &Command), &LineAsked> {
    match asked {
        LineAsked::Ask(Ask::Do { account, key, cmd }) => Ok((*account, *key, cmd)),
        _ => Err(asked),
    }
}

// A line asks for its command under account 1 and key 3.
fn check_line<R: Print>(
    checks: &mut Checks<'_, R>,
    alloc: Global,
    name: &str,
    text: &str,
    want: &Command,
) {
    let asked = shared(line(alloc, text.as_bytes()));
    checks.same_at(name, done_of(&asked), Ok((1, 3, want)));
    drop(asked);
}

// Each line asks for its command.
fn check_lines<R: Print>(checks: &mut Checks<'_, R>, alloc: Global, lines: Lines) {
    for (name, text, want) in lines {
        check_line(checks, alloc, name, text, want);
    }
}

#[test]
fn each_command_is_read(rt: HostRuntime) -> Result<(), Fail> {
    let mut checks = Checks::new(&rt);
    check_lines(&mut checks, rt.alloc(), READINGS);
    Ok(checks.end()?)
}

#[test]
fn each_opening_is_read(rt: HostRuntime) -> Result<(), Fail> {
    let mut checks = Checks::new(&rt);
    check_lines(&mut checks, rt.alloc(), OPENINGS);
    Ok(checks.end()?)
}

#[test]
fn each_end_of_a_movement_is_read(rt: HostRuntime) -> Result<(), Fail> {
    let mut checks = Checks::new(&rt);
    check_lines(&mut checks, rt.alloc(), ENDS);
    Ok(checks.end()?)
}

// Lines, and what each asks for.
type Asked = &'static [(&'static str, LineAsked)];

// Each line asks for what its row says.
fn check_asked<R: Print>(checks: &mut Checks<'_, R>, alloc: Global, rows: Asked) {
    for (text, want) in rows {
        let asked = line(alloc, text.as_bytes());
        checks.same_at(text, &asked, want);
        drop(asked);
    }
}

const TICKETS: Asked = &[
    (
        r#"{"do":"ticket","place":5}"#,
        LineAsked::Ask(Ask::Look(Query::Ticket(5))),
    ),
    (
        r#"{"do":"ticket","place":5,"account":0,"key":null}"#,
        LineAsked::Ask(Ask::Look(Query::Ticket(5))),
    ),
];

#[test]
fn a_look_up_needs_no_account_and_no_key(rt: HostRuntime) -> Result<(), Fail> {
    let mut checks = Checks::new(&rt);
    check_asked(&mut checks, rt.alloc(), TICKETS);
    Ok(checks.end()?)
}

const GREATEST: Asked = &[(
    r#"{"do":"stop","account":999999,"key":9223372036854775807}"#,
    LineAsked::Ask(Ask::Do {
        account: 999_999,
        key: 9_223_372_036_854_775_807,
        cmd: Command::Stop,
    }),
)];

// As many brackets that open and that close.
fn brackets(alloc: Global, depth: usize) -> Result<(String, String), AllocError> {
    let open = "[".repeat(alloc, depth)?;
    match "]".repeat(alloc, depth) {
        Ok(close) => Ok((open, close)),
        Err(fault) => {
            drop(open);
            Err(fault)
        }
    }
}

// A Stop with a member that is passed over and nests this deep below the object.
fn nested(alloc: Global, depth: usize) -> Result<String, AllocError> {
    let (open, close) = brackets(alloc, depth)?;
    let text = format!(in alloc; "{{\"a\":{open}{close},\"do\":\"stop\",\"account\":1,\"key\":3}}");
    drop((open, close));
    text
}

// What a Stop with such a member asks for.
fn nested_asked(alloc: Global, depth: usize) -> Result<LineAsked, AllocError> {
    let text = nested(alloc, depth)?;
    let asked = line(alloc, text.as_bytes());
    drop(text);
    Ok(asked)
}

#[test]
fn a_stop_is_read(rt: HostRuntime) -> Result<(), Fail> {
    let mut checks = Checks::new(&rt);
    check_lines(&mut checks, rt.alloc(), STOPS);
    let deep = nested_asked(rt.alloc(), 126)?;
    checks.same_at(
        "nested 126 deep",
        done_of(&deep),
        Ok((1, 3, &Command::Stop)),
    );
    drop(deep);
    check_asked(&mut checks, rt.alloc(), GREATEST);
    Ok(checks.end()?)
}

const BAD_LINES: &[&str] = &[
    "",
    "{}",
    "[]",
    r#"{"do":"open","account":1,"key":1}"#,
    r#"{"do":"stop","account":0,"key":1}"#,
    r#"{"do":"stop","account":1000000,"key":1}"#,
    r#"{"do":"stop","account":1,"key":-1}"#,
    r#"{"do":"stop","account":1,"key":9223372036854775808}"#,
    r#"{"do":"stop","account":"1","key":1}"#,
    r#"{"do":"stop","account":1}"#,
    r#"{"do":"stop","account":1,"key":1} 1"#,
    r#"{"do":"stop","account":1,"key":1,"a":"\ud800"}"#,
    r#"{"do":"sample","account":1,"key":1,"tank":65536,"density":1,"sw":0}"#,
    r#"{"do":"sample","account":1,"key":1,"tank":-1,"density":1,"sw":0}"#,
    r#"{"do":"sample","account":1,"key":1,"tank":1,"density":1.0,"sw":0}"#,
    r#"{"do":"sample","account":1,"key":1,"tank":1,"density":1e3,"sw":0}"#,
    r#"{"do":"sample","account":1,"key":1,"tank":1,"density":1,"sw":-0}"#,
    r#"{"do":"sample","account":1,"key":1,"tank":1,"density":9223372036854775808,"sw":0}"#,
    r#"{"do":"gauge","account":1,"key":1,"tank":1,"level":1,"water":0,"temperature":0}"#,
    r#"{"do":"dip","account":1,"key":1,"tank":1,"kind":"ullage","tapes":[],"water":[],"temperatures":[],"ambient":0}"#,
    r#"{"do":"dip","account":1,"key":1,"tank":1,"kind":"innage","tapes":[1,2,3,4,5,6,7,8,9],"water":[],"temperatures":[],"ambient":0}"#,
    r#"{"do":"dip","account":1,"key":1,"tank":1,"kind":"innage","tapes":[1,"2"],"water":[],"temperatures":[],"ambient":0}"#,
];

// Each line is bad.
fn check_bad_lines<R: Print>(checks: &mut Checks<'_, R>, alloc: Global) {
    for text in BAD_LINES {
        checks.same_at(text, line(alloc, text.as_bytes()), LineAsked::Bad);
    }
}

const NO_TEXT: &[u8] = b"{\"do\":\"stop\",\"account\":1,\"key\":1,\"a\":\"\xff\"}";

#[test]
fn other_lines_are_bad(rt: HostRuntime) -> Result<(), Fail> {
    let mut checks = Checks::new(&rt);
    check_bad_lines(&mut checks, rt.alloc());
    checks.same_at(
        "a byte of no text",
        line(rt.alloc(), NO_TEXT),
        LineAsked::Bad,
    );
    checks.same_at(
        "nested 127 deep",
        nested_asked(rt.alloc(), 127)?,
        LineAsked::Bad,
    );
    Ok(checks.end()?)
}

// The body of a page.
fn body_of(alloc: Global, page: &Page) -> Result<Vec<u8>, NoMemory>
    requires { IsAnswer page.now }
{
    let mut out = Vec::new(alloc);
    if let Err(fault) = body(page, &mut out) {
        drop(out);
        return Err(fault);
    }
    Ok(out)
}

// A page has this body.
fn check_body<R: Print>(
    checks: &mut Checks<'_, R>,
    alloc: Global,
    page: &Page,
    want: &str,
) -> Result<(), NoMemory>
    requires { IsAnswer page.now }
{
    let body = body_of(alloc, page)?;
    checks.same_at(want, body.as_slice(), want.as_bytes());
    drop(body);
    Ok(())
}

#[test]
fn bodies_are_compact(rt: HostRuntime) -> Result<(), Fail> {
    let mut checks = Checks::new(&rt);
    let replies = [
        (Reply::Placed(1), r#"{"place":1}"#),
        (
            Reply::Refused(Rule::KeyReused(1)),
            r#"{"rule":1,"value":1}"#,
        ),
        (Reply::Refused(Rule::UnknownTank), r#"{"rule":3,"value":0}"#),
    ];
    for (reply, want) in replies {
        check_body(&mut checks, rt.alloc(), &Page::Reply(reply), want)?;
    }
    let refused = Page::Status(400, None);
    check_body(&mut checks, rt.alloc(), &refused, r#"{"error":400}"#)?;
    checks.same_at(
        "a status",
        shared(Page::Status(507, None)),
        Page::Status(507, None),
    );
    Ok(checks.end()?)
}

const STOCKS: Asked = &[
    (
        r#"{"do":"stock","tank":101}"#,
        LineAsked::Ask(Ask::Look(Query::Stock(101))),
    ),
    (r#"{"do":"total"}"#, LineAsked::Ask(Ask::Look(Query::Total))),
];

#[test]
fn a_settlement_and_what_is_asked_of_stocks_are_read(rt: HostRuntime) -> Result<(), Fail> {
    let mut checks = Checks::new(&rt);
    check_lines(&mut checks, rt.alloc(), SETTLEMENTS);
    check_asked(&mut checks, rt.alloc(), STOCKS);
    Ok(checks.end()?)
}
