//! What the desk answers.

use crate::Rule;
use farm_fixed::Amount;
use farm_ticket::Ticket;

/// The answer to a command or a look-up.
#[derive(Clone, Copy, Debug, PartialEq, Eq)]
pub enum Reply {
    /// The command stands in the history at this place, counted from 1.
    Placed(u32),
    /// The ticket that a Closing or a Reverse issued.
    Ticket(Ticket),
    /// The command is a Settle.
    Gain {
        /// Its place in the history, counted from 1.
        place: u32,
        /// What the tank held by its figures less what it held by its book.
        amount: Amount,
    },
    /// What a tank holds by its book.
    Stock {
        /// The number of the tank.
        tank: u16,
        /// What it holds.
        amount: Amount,
        /// The place of its last gauge's reading or dip, 0 where it has no reading.
        reading: u32,
        /// The place of its last sample, 0 where it has no sample.
        sample: u32,
    },
    /// What the terminal holds in all.
    Total {
        /// The number of entries.
        entries: u32,
        /// The sum of the books.
        amount: Amount,
    },
    /// The command or the look-up was refused by this rule, and the history is as before.
    Refused(Rule),
}
