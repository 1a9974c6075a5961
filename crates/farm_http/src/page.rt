//! What is answered, before it is text.

use farm_history::Reply;

/// A method that a path has.
#[derive(Clone, Copy, Debug, PartialEq, Eq)]
pub enum Allow {
    /// `GET`.
    Get,
    /// `POST`.
    Post,
}

/// An answer: the desk's reply, or the status of a request that the desk wasn't asked.
#[derive(Clone, Copy, Debug, PartialEq, Eq)]
pub enum Page {
    /// What the desk replied.
    Reply(Reply),
    /// A status of HTTP (400, 404, 405, 411, 413, 431, 503 or 507), and with 405 the method that the path has.
    Status(u16, Option<Allow>),
}
