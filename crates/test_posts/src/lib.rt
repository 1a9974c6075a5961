//! Tests of a desk that desk posts and gauge lines serve side by side, over listeners and links in memory: what no clause of `farm_serve`
//! says.
#![tactic(auto)]

#[cfg(test)]
mod days;
#[cfg(test)]
mod desks;
#[cfg(test)]
mod failed_polls;
#[cfg(test)]
mod late;
#[cfg(test)]
mod lines;
#[cfg(test)]
mod making;
#[cfg(test)]
mod posts;
#[cfg(test)]
mod sharing;
