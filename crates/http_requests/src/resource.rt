//! What a path names.

ghost use Rattle.std.specs.Prelude.{◌≡◌, IfOk, Ok};
ghost use Rattle.farm_history.specs.declared.ask.Ask.{Ask};
ghost use Rattle.farm_history.specs.Desk.{IsWellFormedAsk};
ghost use Rattle.http_requests.specs.Asking.{asked_by, method_of, name_of};

use crate::asked::Asked;
use crate::word::Word;
use farm_base::NoMemory;
use farm_history::{Ask, Query};
use farm_http::{Allow, LineAsked, posted};
use http_heads::BAD_REQUEST;
use std::alloc::Global;

/// What a path names.
#[derive(Clone, Copy, Debug, PartialEq, Eq)]
pub(crate) enum Resource {
    /// A command, by its word.
    Command(Word),
    /// A look-up.
    Look(Query),
}

impl Resource {
    // The method by which it is asked.
    pub(crate) fn method(&self) -> Allow
        ensures { result ≡ method_of self.now }
    {
        match self {
            Resource::Command(_) => Allow::Post,
            Resource::Look(_) => Allow::Get,
        }
    }

    // What a body asks of it. A look-up doesn't look at the body.
    #[tactic(auto, unfolding(crate::specs::Asking::asked_by))]
    pub(crate) fn asked(&self, alloc: Global, body: &[u8]) -> Result<Asked, NoMemory>
        ensures asked { IfOk result (λ asked. asked ≡ asked_by self.now body.now) }
        ensures well_formed { (ask : Ask) → result ≡ Ok (Asked.Ask ask) → IsWellFormedAsk ask }
    {
        match self {
            Resource::Command(word) => match posted(alloc, word.text(), body) {
                LineAsked::Ask(ask) => Ok(Asked::Ask(ask)),
                LineAsked::Bad => Ok(Asked::Bad(BAD_REQUEST, None)),
                LineAsked::NoMemory => Err(NoMemory),
            },
            Resource::Look(query) => Ok(Asked::Ask(Ask::Look(*query))),
        }
    }
}

// The name of a method.
pub(crate) fn name_of(method: Allow) -> &'static [u8]
    ensures { result.now ≡ name_of method }
{
    match method {
        Allow::Get => b"GET",
        Allow::Post => b"POST",
    }
}
