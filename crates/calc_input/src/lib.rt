//! The input of `calc`: from its bytes to the ten figures, or to the line that is refused.
//!
//! An input is at most 1,048,576 bytes in one of two forms: one line of observed volumes, or levels of a tank with its capacity
//! table and its correction factors. `figures_of_input` has the figures, and its contract says which line a refusal names, in the
//! words of the rule (`specs/RefusedLine.antt`). Lines are numbered from 1. docs/machine.md has the two forms.
#![tactic(auto)]

mod answer;
mod factor_rows;
mod fault;
mod fields;
mod forms;
mod levels_line;
mod lines;
mod number_laws;
mod refusal;
mod table_rows;
mod volumes_line;

pub use answer::{MOST_INPUT_BYTES, NoFigures, figures_of_input, input_laws};
pub use number_laws::defined_numbers;
pub use refusal::{Cause, Refused};
