//! The links of a run, in memory, and what is expected of them.

use crate::call::Call;
use crate::digits::digit_bytes;
use crate::fault::CaseFault;
use crate::keys::{Keys, numbers_of, texts_of};
use farm_ports::Wire;
use std::alloc::Global;
use toml::Value;

/// A link of a run.
#[derive(Clone, Copy)]
pub struct RunLink<'a> {
    /// What its responses are, one to each send: a list of texts of digits.
    pub responses: &'a [Value],
    /// The calls that fail, by their numbers from 1.
    pub fails: &'a [Value],
    /// The calls that it is expected to take, in order; they aren't compared if they aren't given.
    pub calls: Option<&'a [Value]>,
}

impl<'a> RunLink<'a> {
    /// What a table of `links` has.
    pub fn of(alloc: Global, value: &'a Value) -> Result<Self, CaseFault> {
        let keys = Keys::of_value(alloc, "links", value, &["responses"], &["fails", "calls"])?;
        Ok(RunLink {
            responses: keys.list("responses")?,
            fails: keys.list("fails")?,
            calls: keys.given_list("calls")?,
        })
    }

    // The link, in memory.
    fn wire(&self, alloc: Global) -> Result<Wire, CaseFault> {
        let responses = responses_of(alloc, self.responses)?;
        let fails = numbers_of(alloc, "fails", self.fails)?;
        Ok(Wire::new(alloc, responses, fails)?)
    }
}

/// The links of a run, in memory.
pub fn links_of(alloc: Global, links: &[Value]) -> Result<Vec<Wire>, CaseFault> {
    let mut all = Vec::new(alloc);
    for value in links {
        all.push(RunLink::of(alloc, value)?.wire(alloc)?)?;
    }
    Ok(all)
}

// The bytes of responses.
fn responses_of(alloc: Global, values: &[Value]) -> Result<Vec<Vec<u8>>, CaseFault> {
    let mut responses = Vec::new(alloc);
    for text in &texts_of(alloc, "responses", values)? {
        responses.push(digit_bytes(alloc, text)?)?;
    }
    Ok(responses)
}

/// The calls that texts are.
pub fn calls_of(alloc: Global, values: &[Value]) -> Result<Vec<Call>, CaseFault> {
    let mut calls = Vec::new(alloc);
    for text in &texts_of(alloc, "calls", values)? {
        calls.push(Call::of_text(alloc, text)?)?;
    }
    Ok(calls)
}
