//! The ports of a run, in memory.

use crate::case::Run;
use crate::fault::CaseFault;
use crate::input::source_of;
use crate::keys::numbers_of;
use crate::text::given_bytes;
use farm_ports::{Files, Fixed, Folder, Gather, Script};
use std::alloc::Global;

/// The clock, the output, the input and the folder of a run.
#[derive(Drop)]
pub struct Ports {
    /// The moment that the clock gives.
    pub clock: Fixed,
    /// What the run prints.
    pub output: Gather,
    /// What standard input has.
    pub input: Script,
    /// The files of the site's folder.
    pub folder: Files,
}

/// The ports of a run with this folder, whose input comes in pieces of a number of bytes or in one.
pub fn ports_of<F: Folder>(
    alloc: Global,
    data: &mut F,
    run: &Run<'_>,
    piece_bytes: Option<u64>,
    folder: Files,
) -> Result<Ports, CaseFault> {
    Ok(Ports {
        clock: Fixed::new(alloc, run.clock)?,
        output: Gather::new(alloc, numbers_of(alloc, "output", run.fails.output)?)?,
        input: input_of(alloc, data, run, piece_bytes)?,
        folder,
    })
}

// The input of a run, in pieces of a number of bytes or in one.
fn input_of<F: Folder>(
    alloc: Global,
    data: &mut F,
    run: &Run<'_>,
    piece_bytes: Option<u64>,
) -> Result<Script, CaseFault> {
    let fails = numbers_of(alloc, "input", run.fails.input)?;
    let bytes = given_bytes(alloc, data, run.input)?;
    Ok(source_of(alloc, &bytes, piece_bytes, fails)?)
}
