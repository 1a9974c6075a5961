//! Trials of cases: a case run over ports, a disk, listeners and links in memory, and what came of it compared with what is expected.
//!
//! A case is what `case_files` reads. Before it runs, its disk is made: the bytes or the journal that it gives, the runs before it,
//! each of which has to agree, a crash, patches and a cut. A trial that differs prints the first line and the first byte that do.
#![tactic(auto)]

mod answer;
mod difference;
mod disk;
mod fault;
mod links;
mod stage;
mod trial;
mod visited;

pub use answer::Answer;
pub use fault::TrialFault;
pub use stage::Stage;
pub use trial::Trial;
pub use visited::Visited;
