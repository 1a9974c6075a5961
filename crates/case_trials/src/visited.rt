//! What the listeners of a run have after it, or are expected to have.

use case_files::{CaseFault, RunListener, listeners_of, numbers_of, written_of};
use farm_disk::MemDisk;
use farm_listeners::{Talk, Visits};
use farm_ports::Folder;
use farm_run::RunPost;
use farm_serve::Post;
use std::alloc::Global;
use toml::Value;

/// What a listener has after a run, or is expected to have.
#[derive(Debug, Drop, PartialEq, Eq)]
pub struct Visited {
    /// The ports that it was asked to listen on, in order, if the case looks at them.
    pub ports: Vec<u64>,
    /// What was put on each connection that was handed back, in order.
    pub written: Vec<Vec<u8>>,
}

/// The posts over the listeners of a run.
pub(crate) fn posts_of<F: Folder>(
    alloc: Global,
    data: &mut F,
    listeners: &[Value],
) -> Result<Vec<RunPost<Visits, MemDisk>>, CaseFault> {
    let mut posts = Vec::new(alloc);
    for visits in listeners_of(alloc, data, listeners)? {
        posts.push(Post::new(visits))?;
    }
    Ok(posts)
}

/// What is expected of the listeners of a run.
pub(crate) fn wanted_visited<F: Folder>(
    alloc: Global,
    data: &mut F,
    listeners: &[Value],
) -> Result<Vec<Visited>, CaseFault> {
    let mut all = Vec::new(alloc);
    for value in listeners {
        let listener = RunListener::of(alloc, value)?;
        let visited = Visited {
            ports: numbers_of(alloc, "ports", listener.ports.unwrap_or(&[]))?,
            written: written_of(alloc, data, listener.visits)?,
        };
        all.push(visited)?;
    }
    Ok(all)
}

/// What the listeners of posts have.
pub(crate) fn all_visited(
    alloc: Global,
    posts: &[RunPost<Visits, MemDisk>],
    listeners: &[Value],
) -> Result<Vec<Visited>, CaseFault> {
    let mut all = Vec::new(alloc);
    for (post, value) in posts.iter().zip(listeners) {
        let listener = RunListener::of(alloc, value)?;
        all.push(visited_of(alloc, post.outside(), &listener)?)?;
    }
    Ok(all)
}

// What a listener has.
fn visited_of(
    alloc: Global,
    visits: &Visits,
    listener: &RunListener<'_>,
) -> Result<Visited, CaseFault> {
    let looked_at = match listener.ports {
        Some(_) => visits.ports(),
        None => &[],
    };
    Ok(Visited {
        ports: looked_at
            .iter()
            .map(|port| u64::from(*port))
            .collect(alloc)?,
        written: written_on(alloc, visits.talks())?,
    })
}

// What was put on connections.
fn written_on(alloc: Global, talks: &[Talk]) -> Result<Vec<Vec<u8>>, CaseFault> {
    let mut all = Vec::new(alloc);
    for talk in talks {
        all.push(Vec::from_slice(alloc, talk.written())?)?;
    }
    Ok(all)
}
