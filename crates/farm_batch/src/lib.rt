//! Batches: lines of requests, each answered before more is taken.
//!
//! A batch asks the lines of a source one after another, as caller 0, and puts all answers before it takes more. It ends at the end of
//! the source, after a Stop that was accepted and answered, at a line too many, or if a port fails.
#![tactic(auto)]

mod answers;
mod batch;
mod laws;
mod limits;
mod number_laws;
mod waiting;

pub use batch::{BatchEnd, answer_lines};
pub use laws::batch_laws;
pub use limits::{BATCH_CALLER, MOST_LINES, MOST_PUT_BYTES};
pub use number_laws::defined_numbers;
