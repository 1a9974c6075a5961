//! Indexes of a history: what the rules and look-ups ask of its entries, kept up to date as entries come.
//!
//! The definitions are those of `farm_history`; an index is what the whole list of entries gives, at every moment. Facts are asked through
//! `PastFacts`: a `Past` computes each from the list, an `Indexed` past finds it in the indexes, in a time that doesn't grow with the
//! history. Only `Indexes::new` and `Indexes::reserve` take memory.
#![tactic(auto)]

mod facts;
mod figured;
mod indexed;
mod indexes;
mod issuing;
mod last_figures;
mod notes;
mod open_moves;
mod past_facts;
mod tank_states;

pub use facts::PastFacts;
pub use figured::Figured;
pub use indexed::Indexed;
pub use indexes::Indexes;
pub use last_figures::{LastFigures, TankFigures};
pub use notes::{Note, Notes};
pub use open_moves::{OpenMoves, TankMove};
pub use tank_states::{TankState, TankStates};
