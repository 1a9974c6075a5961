//! What a connection's bytes ask.

ghost use Rattle.std.specs.Prelude.{◌≡◌, ◌<◌, ℕ, Bool, length};
ghost use Rattle.farm_history.specs.declared.ask.Ask.{Ask};
ghost use Rattle.farm_history.specs.Desk.{IsWellFormedAsk};
ghost use Rattle.http_requests.specs.Hearing.{IsHeard, IsOnlyHeard};
ghost use Rattle.http_requests.specs.Limits.{most_request_bytes};

use crate::asked::Asked;
use crate::routes::Routes;
use farm_base::NoMemory;
use std::alloc::Global;

/// What the bytes in hand are.
#[derive(Debug, Drop, PartialEq, Eq)]
pub enum Heard {
    /// More bytes are needed.
    Need,
    /// There was no memory to read them.
    NoMemory,
    /// No request: the status that says how the bytes are broken, 400, 411, 413 or 431.
    Broken(u16),
    /// A whole request.
    Got {
        /// What it asks.
        asked: Asked,
        /// Whether the connection ends with it.
        last: bool,
        /// How many bytes it has.
        used: usize,
    },
}

/// What the bytes in hand are, over routes of its own.
///
/// It answers as `Routes::hear` does, and may run out of memory for the routes too.
pub fn hear(alloc: Global, bytes: &[u8]) -> Heard
    ensures heard { IsHeard bytes.now result }
    ensures only { IsOnlyHeard bytes.now result }
    ensures room { result ≡ Heard.Need → length bytes.now < most_request_bytes }
    ensures well_formed { (ask : Ask) (last : Bool) (used : ℕ) → result ≡ Heard.Got (Asked.Ask ask) last used → IsWellFormedAsk ask }
{
    match Routes::new(alloc) {
        Ok(routes) => routes.hear(alloc, bytes),
        Err(NoMemory) => Heard::NoMemory,
    }
}
