//! Tests of what comes for the desk over HTTP: listeners, heads of requests, requests, bodies that are posted, pages, the summary of a
//! book, and how a post reaches a desk. They show what no clause of `farm_listeners`, `http_heads`, `http_requests`, `farm_http`,
//! `http_pages`, `book_texts` and `desk_access` says.
#![tactic(auto)]

#[cfg(test)]
mod access;
#[cfg(test)]
mod bodies;
#[cfg(test)]
mod broken_heads;
#[cfg(test)]
mod commands;
#[cfg(test)]
mod connections;
#[cfg(test)]
mod desks;
#[cfg(test)]
mod heads;
#[cfg(test)]
mod pages;
#[cfg(test)]
mod requests;
#[cfg(test)]
mod summaries;
#[cfg(test)]
mod tcp;
