//! The custody calculation of a static tank: from a reading, or from observed volumes, to net standard volume and mass.
//!
//! The steps are in the manner of API MPMS 12.1.1, with the choices of this terminal's profile; docs/trade.md states
//! each under "Custody calculation". Each figure is computed from the rounded figures before it.
#![tactic(auto)]

mod reading;
mod roofs;
mod steps;
mod volumes;

pub use reading::quantities;
pub use volumes::figures;
