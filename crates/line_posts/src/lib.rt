//! Line posts: the gauges of a line are polled round by round, over any link, and readings that are due are submitted to a desk, over any
//! access to it.
//!
//! A line submits for an account of its own, each reading under a key of its own. docs/machine.md has the
//! rules, under "Gauge lines".
#![tactic(auto)]

mod laws;
mod limits;
mod line;
mod number_laws;
mod polling;
mod rounds;
mod running;
mod submitting;

pub use laws::line_laws;
pub use limits::{KEYS_APART, LINE_ACCOUNTS, MOST_ROUNDS};
pub use line::GaugeLine;
pub use number_laws::defined_numbers;
pub use running::run_line;
