//! The runs of the program's commands over the ports and the disk that they are handed.
//!
//! `run` does all that the program does; `main` hands it the real ports and the real disk. Its contract is one record a command
//! (`specs/`), over what the ports and the disk are known to hold and the counts of their faults. docs/machine.md says what each
//! command reads and prints, docs/operating.md has the statuses.
#![tactic(auto)]

mod alone;
mod batch_run;
mod drill_run;
mod init_run;
mod program;
mod report_run;
mod statuses;
mod texts;
mod words;

pub use alone::run_alone;
pub use farm_site::MOST_LINES;
pub use program::run;
pub use run_reports::{BOOK_LIMIT, Done, defined_numbers, report_no_memory};
pub use serve_run::{RunLine, RunPost};
