//! What a request asks.

use farm_history::Ask;
use farm_http::Allow;

/// What a request asks.
#[derive(Debug, Drop, PartialEq, Eq)]
pub enum Asked {
    /// This, of the desk.
    Ask(Ask),
    /// Nothing: the status that says why, 400, 404 or 405, and with 405 the method that the path has.
    Bad(u16, Option<Allow>),
}
