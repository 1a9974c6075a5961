//! What a caller asks of the desk.

use crate::{Command, Query};

/// One request.
#[derive(Debug, Drop, PartialEq, Eq)]
pub enum Ask {
    /// To record a command, for an account and under its key.
    Do {
        /// The account.
        account: u32,
        /// The account's own key of the request.
        key: u64,
        /// The command.
        cmd: Command,
    },
    /// To look something up.
    Look(Query),
}
