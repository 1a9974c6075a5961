//! Lines of a batch, and bodies that are posted.

ghost use Rattle.std.specs.Prelude.{◌≡◌, IfOk, IfSome, option_map};
ghost use Rattle.serde_json.specs.View.{view};
ghost use Rattle.farm_history.specs.Desk.{IsWellFormedAsk};
ghost use Rattle.farm_http.specs.Members.{value_of};
ghost use Rattle.farm_http.specs.Requests.{IsLineRead, IsPostedRead, ask_of_value, asked_of, do_of, stock_look_of, ticket_look_of};

use crate::commands::{command_of, place_at, tank_at};
use crate::members::{natural_at, text_at};
use farm_base::NoMemory;
use farm_history::{Ask, Query};
use serde_json::Value;
use std::alloc::Global;

/// The greatest account of a caller.
pub const MOST_ACCOUNT: u32 = 999_999;
/// The greatest key of a request.
pub const MOST_KEY: u64 = 9_223_372_036_854_775_807;
/// The greatest number of a tank.
pub const MOST_TANK_NUMBER: u16 = 65_535;
/// The greatest number of a party.
pub const MOST_PARTY_NUMBER: u16 = 65_535;
/// The greatest place of a history.
pub const MOST_PLACE: u32 = 4_294_967_295;

/// What a line asks for, or a body that is posted.
#[derive(Debug, Drop, PartialEq, Eq)]
pub enum LineAsked {
    /// A request to the desk.
    Ask(Ask),
    /// It is no request.
    Bad,
    /// There was no memory to read it.
    NoMemory,
}

/// What a line of a batch asks for. The line comes without its line feed.
///
/// `Bad` exactly where it is no JSON object with the members of a request: also bytes that are no UTF-8, an empty line, and any
/// other `do`. Other members are passed over. The commands that it gives are well formed.
pub fn line(alloc: Global, bytes: &[u8]) -> LineAsked
    ensures read { IsLineRead bytes.now result }
    ensures well_formed { (ask : Ask) → result ≡ LineAsked.Ask ask → IsWellFormedAsk ask }
{
    match value_of(alloc, bytes) {
        Ok(Some(value)) => asked(ask_of_value(&value)),
        Ok(None) => LineAsked::Bad,
        Err(NoMemory) => LineAsked::NoMemory,
    }
}

/// What the body of a request asks for, whose command is known by a word: `gauge`, `dip`, `sample`, `open`, `close`, `cancel`,
/// `reverse`, `settle` or `stop`.
///
/// `Bad` exactly where it is no JSON object with the account, the key and the members of that command: also bytes that are no
/// UTF-8, an empty body, and any other word. Other members are passed over, `do` too. The commands that it gives are well formed.
pub fn posted(alloc: Global, word: &str, bytes: &[u8]) -> LineAsked
    ensures read { IsPostedRead word.now bytes.now result }
    ensures well_formed { (ask : Ask) → result ≡ LineAsked.Ask ask → IsWellFormedAsk ask }
{
    match value_of(alloc, bytes) {
        Ok(Some(value)) => asked(do_of(word, &value)),
        Ok(None) => LineAsked::Bad,
        Err(NoMemory) => LineAsked::NoMemory,
    }
}

// The value that bytes are, where they are one.
fn value_of(alloc: Global, bytes: &[u8]) -> Result<Option<Value>, NoMemory>
    ensures { IfOk result (λ value. option_map view value ≡ value_of bytes.now) }
{
    match Value::from_slice(alloc, bytes) {
        Ok(value) => Ok(Some(value)),
        Err(fault) if fault.is_memory() => Err(NoMemory),
        Err(_) => Ok(None),
    }
}

// What is asked for, or that nothing is.
fn asked(ask: Option<Ask>) -> LineAsked
    ensures { result ≡ asked_of ask }
{
    match ask {
        Some(ask) => LineAsked::Ask(ask),
        None => LineAsked::Bad,
    }
}

// What a value asks for, where it asks for something.
#[tactic(auto, unfolding(crate::specs::Requests::ask_of_value, crate::specs::Requests::ask_by))]
fn ask_of_value(value: &Value) -> Option<Ask>
    ensures value { result ≡ ask_of_value (view value.now) }
    ensures well_formed { IfSome result IsWellFormedAsk }
{
    match text_at(value, "do")? {
        "ticket" => ticket_look_of(value),
        "stock" => stock_look_of(value),
        "total" => Some(Ask::Look(Query::Total)),
        word => do_of(word, value),
    }
}

// A ticket that is looked up.
#[tactic(auto, unfolding(crate::specs::Requests::ticket_look_of))]
fn ticket_look_of(value: &Value) -> Option<Ask>
    ensures value { result ≡ ticket_look_of (view value.now) }
    ensures well_formed { IfSome result IsWellFormedAsk }
{
    let place = place_at(value, "place")?;
    Some(Ask::Look(Query::Ticket(place)))
}

// The book of a tank that is looked up.
#[tactic(auto, unfolding(crate::specs::Requests::stock_look_of))]
fn stock_look_of(value: &Value) -> Option<Ask>
    ensures value { result ≡ stock_look_of (view value.now) }
    ensures well_formed { IfSome result IsWellFormedAsk }
{
    let tank = tank_at(value, "tank")?;
    Some(Ask::Look(Query::Stock(tank)))
}

// A command that is to be done, by its word.
#[tactic(auto, unfolding(crate::specs::Requests::do_of))]
fn do_of(word: &str, value: &Value) -> Option<Ask>
    ensures value { result ≡ do_of word.now (view value.now) }
    ensures well_formed { IfSome result IsWellFormedAsk }
{
    let account = natural_at(value, "account", 1, u64::from(MOST_ACCOUNT))?;
    let key = natural_at(value, "key", 0, MOST_KEY)?;
    Some(Ask::Do {
        account: account as u32,
        key,
        cmd: command_of(word, value)?,
    })
}
