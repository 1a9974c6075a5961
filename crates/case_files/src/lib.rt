//! The files of cases: what a case has, by its keys, and the texts, the folder, the ports, the listeners and the links that it names.
//!
//! A case is a table of a TOML file: a name, the words, the input, the files of the folder, the calls that fail, and the status and
//! the output that are expected. The README of `farm_cases` says how to read and add one.
#![tactic(auto)]

mod call;
mod case;
mod data;
mod digits;
mod fault;
mod folder;
mod input;
mod keys;
mod links;
mod listeners;
mod patches;
mod ports;
mod text;

pub use call::Call;
pub use case::{Case, CaseDisk, Changes, FailingCalls, Image, Listing, Run, Sites};
pub use data::{read_file, read_table};
pub use fault::CaseFault;
pub use folder::folder_of;
pub use input::source_of;
pub use keys::{Keys, list_of, numbers_of, texts_of, wrong_type};
pub use links::{RunLink, calls_of, links_of};
pub use listeners::{Connection, RunListener, listeners_of, written_of};
pub use patches::{Patch, patches_of};
pub use ports::{Ports, ports_of};
pub use text::{Text, given_bytes, text_at, text_bytes};
