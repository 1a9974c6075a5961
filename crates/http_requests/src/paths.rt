//! Paths, and their parameters.

ghost use Rattle.std.specs.Prelude.{◌≡◌, ◌==◌, ◌≤◌, position, IfSome, option_map};
ghost use Rattle.farm_history.specs.declared.query.Query.TheVariants as queries;
ghost use Rattle.farm_http.specs.Limits.{most_place, most_tank_number};
ghost use Rattle.matchit.specs.Params.{AllText, walk};
ghost use Rattle.http_requests.specs.declared.resource.Resource.TheVariants as resources;
ghost use Rattle.http_requests.specs.Paths.{named_by, number_within, path_of};

use crate::limits::MOST_PARAMETER_DIGITS;
use crate::resource::Resource;
use crate::route::Route;
use farm_base::is_all_digits;
use farm_history::Query;
use farm_http::{MOST_PLACE, MOST_TANK_NUMBER};
use matchit::Params;

// The path of a target: what precedes its first question mark.
pub(crate) fn path_of(target: &[u8]) -> &[u8]
    ensures { result.now ≡ path_of target.now }
{
    match question_mark(target) {
        Some(end) => &target[..end],
        None => target,
    }
}

// The offset of the first question mark.
fn question_mark(target: &[u8]) -> Option<usize>
    ensures { result ≡ position (λ byte. byte == 63) target.now }
{
    target.iter().position(|byte| *byte == b'?')
}

// What a path names that matches a route of a kind, by what the parameters took.
#[tactic(auto, unfolding(crate::specs::Paths::named_by))]
pub(crate) fn named_by(kind: Route, params: &Params<'_, '_>) -> Option<Resource>
    requires text { AllText (walk params.now.pattern.now params.now.text.now params.now.path.now params.now.names.now 0 0) }
    ensures { result ≡ named_by kind params.now.path.now (record {
      pattern = params.now.pattern.now;
      text = params.now.text.now;
      names = params.now.names.now;
      value = kind;
    }) }
{
    match kind {
        Route::Command(word) => Some(Resource::Command(word)),
        Route::Stock => stock_of(params.get("tank")?),
        Route::Total => Some(Resource::Look(Query::Total)),
        Route::Ticket => ticket_of(params.get("place")?),
    }
}

// The book of the tank that a parameter is.
fn stock_of(parameter: &str) -> Option<Resource>
    ensures { result ≡ option_map (λ tank. resources.Look (queries.Stock tank)) (number_within most_tank_number parameter.now) }
{
    let tank = number_within(parameter, u64::from(MOST_TANK_NUMBER))?;
    Some(Resource::Look(Query::Stock(tank as u16)))
}

// The ticket at the place that a parameter is.
fn ticket_of(parameter: &str) -> Option<Resource>
    ensures { result ≡ option_map (λ place. resources.Look (queries.Ticket place)) (number_within most_place parameter.now) }
{
    let place = number_within(parameter, u64::from(MOST_PLACE))?;
    Some(Resource::Look(Query::Ticket(place as u32)))
}

// The number that a parameter is, if it is at most this.
#[tactic(auto, unfolding(crate::specs::Paths::number_within))]
fn number_within(parameter: &str, most: u64) -> Option<u64>
    ensures value { result ≡ number_within most parameter.now }
    ensures within { IfSome result (λ number. number ≤ most) }
{
    if parameter.is_empty()
        || parameter.len() > MOST_PARAMETER_DIGITS
        || !is_all_digits(parameter.as_bytes())
    {
        return None;
    }
    let number = parameter.parse::<u64>().ok()?;
    if number > most {
        return None;
    }
    Some(number)
}
