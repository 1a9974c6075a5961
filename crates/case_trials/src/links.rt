//! The calls that the links of a run took, or are expected to take.

use case_files::{Call, CaseFault, RunLink, calls_of, links_of};
use farm_disk::MemDisk;
use farm_ports::Wire;
use farm_run::RunLine;
use farm_serve::Post;
use std::alloc::Global;
use toml::Value;

/// The lines over the links of a run.
pub(crate) fn lines_of(
    alloc: Global,
    links: &[Value],
) -> Result<Vec<RunLine<Wire, MemDisk>>, CaseFault> {
    let mut lines = Vec::new(alloc);
    for wire in links_of(alloc, links)? {
        lines.push(Post::new(wire))?;
    }
    Ok(lines)
}

/// The calls that the links of a run are expected to take.
pub(crate) fn wanted_calls(alloc: Global, links: &[Value]) -> Result<Vec<Vec<Call>>, CaseFault> {
    let mut all = Vec::new(alloc);
    for value in links {
        let link = RunLink::of(alloc, value)?;
        all.push(calls_of(alloc, link.calls.unwrap_or(&[]))?)?;
    }
    Ok(all)
}

/// The calls that the links of lines took.
pub(crate) fn taken_calls(
    alloc: Global,
    lines: &[RunLine<Wire, MemDisk>],
    links: &[Value],
) -> Result<Vec<Vec<Call>>, CaseFault> {
    let mut all = Vec::new(alloc);
    for (line, value) in lines.iter().zip(links) {
        let link = RunLink::of(alloc, value)?;
        all.push(calls_on(alloc, line.outside(), &link)?)?;
    }
    Ok(all)
}

// The calls that a link took, if they are looked at.
fn calls_on(alloc: Global, wire: &Wire, link: &RunLink<'_>) -> Result<Vec<Call>, CaseFault> {
    let looked_at = match link.calls {
        Some(_) => wire.calls(),
        None => &[],
    };
    let mut calls = Vec::new(alloc);
    for call in looked_at {
        calls.push(Call::of_link(alloc, call)?)?;
    }
    Ok(calls)
}
