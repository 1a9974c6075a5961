//! The routes of the desk, and what is heard over them.

ghost use Rattle.std.specs.Prelude.{◌≡◌, ◌<◌, ℕ, Bool, length, IfOk, Ok, OnOk};
ghost use Rattle.farm_history.specs.declared.ask.Ask.{Ask};
ghost use Rattle.farm_history.specs.Desk.{IsWellFormedAsk};
ghost use Rattle.http_heads.specs.declared.fronts.Front.TheVariants as fronts;
ghost use Rattle.http_heads.specs.Fronts.{IsFront};
ghost use Rattle.http_requests.specs.Asking.{asked_of};
ghost use Rattle.http_requests.specs.Hearing.{IsGotOf, IsHeard, IsOnlyHeard};
ghost use Rattle.http_requests.specs.Limits.{most_request_bytes};
ghost use Rattle.http_requests.specs.Paths.{resource_of};
ghost use Rattle.http_requests.specs.Routes.{routes, with_route, with_routes};

use crate::asked::Asked;
use crate::heard::Heard;
use crate::limits::{METHOD_NOT_ALLOWED, NOT_FOUND};
use crate::paths::{named_by, path_of};
use crate::resource::{Resource, name_of};
use crate::route::Route;
use crate::word::Word;
use farm_base::NoMemory;
use http_heads::{Front, RequestFront, front_of};
use matchit::Router;
use std::alloc::Global;
use std::marker::Model;

/// The routes of the desk.
#[derive(Drop)]
pub struct Routes {
    router: Router<Route>,
}

impl Model for Routes {
    ghost use Rattle.std.specs.Prelude.{◌≡◌};
    ghost use Rattle.http_requests.specs.Routes.{desk_rows};

    ghost Value = { Unit {0} };

    ghost view = { λ routes. tt };

    ghost invariant = { λ routes. routes.router ≡ desk_rows };
}

impl Routes {
    /// The twelve routes.
    #[tactic(auto, unfolding(crate::specs::Routes::desk_rows))]
    pub fn new(alloc: Global) -> Result<Routes, NoMemory> {
        let mut router = Router::new(alloc);
        add_routes(&mut router)?;
        Ok(Routes { router })
    }

    /// What the bytes in hand are.
    ///
    /// `Need` and `Broken` are those of `http_heads`. What a whole request asks is the first of these that holds:
    ///
    /// 1. `Bad(404)`: the path, the target up to its first `?`, is no UTF-8, has no route, or has a parameter that isn't 1 to 10
    ///    digits within 65,535 for a tank and 4,294,967,295 for a place.
    /// 2. `Bad(405)`, with the route's method: the method is another one, in this case of letters.
    /// 3. `Bad(400)`: a command's body isn't its JSON object, as `farm_http::posted` has it.
    /// 4. `Ask`. A look-up's body isn't looked at.
    ///
    /// The time is linear in the bytes. Only reading a command's body takes memory.
    pub fn hear(&self, alloc: Global, bytes: &[u8]) -> Heard
        ensures heard { IsHeard bytes.now result }
        ensures only { IsOnlyHeard bytes.now result }
        ensures room { result ≡ Heard.Need → length bytes.now < most_request_bytes }
        ensures well_formed { (ask : Ask) (last : Bool) (used : ℕ) → result ≡ Heard.Got (Asked.Ask ask) last used → IsWellFormedAsk ask }
    {
        match front_of(bytes) {
            Front::Need => Heard::Need,
            Front::Broken(status) => Heard::Broken(status),
            Front::Whole(request) => self.got(alloc, bytes, &request),
        }
    }

    // What a whole request at the beginning asks.
    fn got(&self, alloc: Global, bytes: &[u8], request: &RequestFront<'_>) -> Heard
        requires { IsFront bytes.now (fronts.Whole request.now) }
        ensures got { IsGotOf bytes.now request.now result }
        ensures well_formed { (ask : Ask) (last : Bool) (used : ℕ) → result ≡ Heard.Got (Asked.Ask ask) last used → IsWellFormedAsk ask }
    {
        let used = request.head + request.body;
        let body = &bytes[request.head..used];
        match self.asked(alloc, request.method, request.target, body) {
            Ok(asked) => Heard::Got {
                asked,
                last: request.last,
                used,
            },
            Err(NoMemory) => Heard::NoMemory,
        }
    }

    // What a request asks.
    #[tactic(auto, unfolding(crate::specs::Asking::asked_of, crate::specs::Asking::asked_on))]
    fn asked(
        &self,
        alloc: Global,
        method: &[u8],
        target: &[u8],
        body: &[u8],
    ) -> Result<Asked, NoMemory>
        ensures asked { IfOk result (λ asked. asked ≡ asked_of method.now target.now body.now) }
        ensures well_formed { (ask : Ask) → result ≡ Ok (Asked.Ask ask) → IsWellFormedAsk ask }
    {
        let Some(resource) = self.resource_at(path_of(target)) else {
            return Ok(Asked::Bad(NOT_FOUND, None));
        };
        let allowed = resource.method();
        if method != name_of(allowed) {
            return Ok(Asked::Bad(METHOD_NOT_ALLOWED, Some(allowed)));
        }
        resource.asked(alloc, body)
    }

    // What a path names.
    #[tactic(auto, unfolding(crate::specs::Paths::resource_of))]
    fn resource_at(&self, path: &[u8]) -> Option<Resource>
        ensures { result ≡ resource_of path.now }
    {
        let path = str::from_utf8(path).ok()?;
        let found = self.router.at(path).ok()?;
        named_by(*found.value, &found.params)
    }
}

// Adds the routes of the desk.
#[tactic(auto, unfolding(crate::specs::Routes::routes))]
fn add_routes(router: &mut Router<Route>) -> Result<(), NoMemory>
    ensures { OnOk result (router.new ≡ with_routes routes router.old) }
{
    add(router, "/gauge", Route::Command(Word::Gauge))?;
    add(router, "/dip", Route::Command(Word::Dip))?;
    add(router, "/sample", Route::Command(Word::Sample))?;
    add(router, "/open", Route::Command(Word::Open))?;
    add(router, "/close", Route::Command(Word::Close))?;
    add(router, "/cancel", Route::Command(Word::Cancel))?;
    add(router, "/settle", Route::Command(Word::Settle))?;
    add(router, "/reverse", Route::Command(Word::Reverse))?;
    add(router, "/stop", Route::Command(Word::Stop))?;
    add(router, "/stock/{tank}", Route::Stock)?;
    add(router, "/total", Route::Total)?;
    add(router, "/ticket/{place}", Route::Ticket)
}

// Adds a route.
fn add(router: &mut Router<Route>, text: &str, route: Route) -> Result<(), NoMemory>
    ensures { OnOk result (router.new ≡ with_route text.now route router.old) }
{
    match router.insert(text, route) {
        Ok(()) => Ok(()),
        Err(_) => Err(NoMemory),
    }
}
