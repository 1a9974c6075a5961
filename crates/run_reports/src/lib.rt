//! What a run of a command says of itself: its status, the line that reports it, and the disk that it hands back.
//!
//! A status is answered by the call that puts its line. The definitions (`specs/`) are over what the output and the disk are known to
//! hold and the counts of their faults, whatever the command is. docs/operating.md has the statuses and their lines.
#![tactic(auto)]

mod done;
mod heap;
mod limits;
mod number_laws;
mod reports;
mod texts;

pub use done::Done;
pub use heap::on_heap;
pub use limits::BOOK_LIMIT;
pub use number_laws::defined_numbers;
pub use reports::{
    DISK_FAILED, DONE, JOURNAL_REFUSED, OUT_OF_MEMORY, PORT_FAILED, deliver, refuse,
    report_disk_fault, report_fault, report_no_memory, report_recover, say,
};
pub use texts::{
    DISK_FAULT_LINE, NO_MEMORY_LINE, NOT_A_JOURNAL_LINE, PORT_FAULT_LINE, journal_damaged_text,
};
