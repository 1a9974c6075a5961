//! The run of `serve`: the desk of a journal, served until a Stop, and the summary of its books.
//!
//! The contract is one record (`specs/ServeRuns.antt`), over what the disk, the output and the listeners are known to hold and the counts
//! of their faults. docs/machine.md says what the command reads and prints, docs/operating.md has the statuses.
#![tactic(auto)]

mod serve_runs;
mod summaries;

pub use serve_runs::{RunLine, RunPost, serve};
