//! What the rules say of a further entry, after the entries of a book.

ghost use Rattle.std.specs.Prelude.{◌≡◌, ◌≢◌, ◌+◌, ◌≤◌, ℕ, if◌then◌else◌, IfErr, IfOk, IfSome, None, Some, length};
ghost use Rattle.std.specs.List.{list_any};
ghost use Rattle.farm_book.specs.Calculated.{AreCalculatedOn};
ghost use Rattle.farm_book.specs.Judging.{fault_of, verdict_of};
ghost use Rattle.farm_indexes.specs.Figured.{AreFiguresOf};
ghost use Rattle.history_lookups.specs.Pasts.{IsReadable};
ghost use Rattle.farm_history.specs.Commands.{IsWellFormedCommand, is_same_command, tanks_given};
ghost use Rattle.farm_history.specs.History.{tank_after};
ghost use Rattle.farm_history.specs.Places.{first_place};
ghost use Rattle.farm_history.specs.Rules.{broken_by_command, is_full, is_missing, is_repeat, has_same_key, unknown_tank};
ghost use Rattle.farm_history.specs.Verdicts.{IsLegal, repeated_or, verdict};
ghost use Rattle.farm_history.specs.declared.limits.TheConstants.{MOST_LIMIT, STOPS_BEYOND_LIMIT};

use crate::calculated::Calculated;
use crate::field_rule::first_bad_field;
use crate::gauging_rules::refused_gauging;
use crate::movement_rules::{judge_movement, unknown_party};
use farm_history::{Command, Entry, Plan, Rule, STOPS_BEYOND_LIMIT, Verdict};
use farm_indexes::{Figured, PastFacts};
use history_lookups::Past;

/// The figures on what an entry names for its tanks, if it is accepted where there may be `limit` entries; or what the rules say of it.
#[tactic(auto, unfolding(farm_history::specs::Verdicts::verdict, farm_history::specs::Rules::broken_rule, farm_history::specs::Rules::key_reused, farm_history::specs::Rules::history_full))]
pub(crate) fn judged<F: PastFacts>(
    limit: usize,
    facts: &F,
    entry: &Entry,
) -> Result<Figured, Verdict>
    requires limit { limit ≤ MOST_LIMIT }
    requires readable { IsReadable (F.history facts.now) }
    requires legal { IsLegal limit (F.history facts.now) }
    requires command { IsWellFormedCommand entry.now.cmd }
    ensures verdict { verdict_of result ≡ verdict limit (F.history facts.now) entry.now }
    ensures figures { IfOk result (AreFiguresOf (F.history facts.now) entry.now.cmd) }
    ensures not_accepted { IfErr result (λ verdict. verdict ≢ Verdict.Accept) }
    ensures repeated { (place : ℕ) → verdict_of result ≡ Verdict.Repeat place → (1 ≤ place) × (place ≤ length (F.history facts.now).entries) }
{
    let past = facts.past();
    if let Some(place) = used_place(facts, entry) {
        return Err(verdict_on_used(limit, &past, place, entry));
    }
    if is_full(limit, past.entries.len(), entry.cmd.is_stop()) {
        return Err(Verdict::Refused(Rule::HistoryFull));
    }
    let calculated = Calculated::of(facts, &entry.cmd);
    match judge_command(facts, &entry.cmd, &calculated) {
        Ok(()) => Ok(calculated.figured()),
        Err(rule) => Err(Verdict::Refused(rule)),
    }
}

// The place at which the account and the key of an entry stand.
fn used_place<F: PastFacts>(facts: &F, entry: &Entry) -> Option<u32>
    requires readable { IsReadable (F.history facts.now) }
    ensures used { result ≡ first_place (has_same_key entry.now) (F.history facts.now).entries }
    ensures new { result ≡ None → first_place (is_repeat entry.now) (F.history facts.now).entries ≡ None }
    ensures within { IfSome result (λ place. (1 ≤ place) × (place ≤ length (F.history facts.now).entries)) }
{
    facts.place_of(entry.account, entry.key)
}

// What is said of an entry whose account and key stand at a place: there the same command is repeated, and any other has a used key.
fn verdict_on_used(limit: usize, past: &Past<'_>, place: u32, entry: &Entry) -> Verdict
    requires legal { IsLegal limit past.now }
    requires used { first_place (has_same_key entry.now) past.now.entries ≡ Some place }
    requires within { (1 ≤ place) × (place ≤ length past.now.entries) }
    ensures verdict { result ≡ repeated_or (first_place (is_repeat entry.now) past.now.entries) (Verdict.Refused (Rule.KeyReused place)) }
    ensures here { (repeated : ℕ) → result ≡ Verdict.Repeat repeated → repeated ≡ place }
    ensures not_accepted { result ≢ Verdict.Accept }
{
    let other = &past.entries[place as usize - 1];
    if is_same_command(&other.cmd, &entry.cmd) {
        return Verdict::Repeat(place);
    }
    Verdict::Refused(Rule::KeyReused(place))
}

// Whether two commands are the same in each field.
#[tactic(auto, unfolding(farm_history::specs::Commands::is_same_command))]
fn is_same_command(command: &Command, other: &Command) -> bool
    ensures same { result ≡ is_same_command command.now other.now }
{
    command == other
}

// Whether a history of this many entries takes no further command.
fn is_full(limit: usize, entries: usize, stop: bool) -> bool
    requires limit { limit ≤ MOST_LIMIT }
    ensures full { result ≡ is_full limit entries stop }
{
    limit + STOPS_BEYOND_LIMIT <= entries || (limit <= entries && !stop)
}

// The first rule that a command breaks which has a new key, and for which there is room.
#[tactic(auto, unfolding(farm_history::specs::Rules::broken_by_command, farm_history::specs::Rules::out_of_range))]
fn judge_command<F: PastFacts>(
    facts: &F,
    command: &Command,
    calculated: &Calculated,
) -> Result<(), Rule>
    requires command { IsWellFormedCommand command.now }
    requires readable { IsReadable (F.history facts.now) }
    requires calculated { AreCalculatedOn (F.history facts.now) command.now calculated.now }
    ensures broken { fault_of result ≡ broken_by_command (F.history facts.now) command.now }
{
    let past = facts.past();
    unknown_tank(&past, command)?;
    unknown_party(&past, command)?;
    if let Some(field) = first_bad_field(command) {
        return Err(Rule::OutOfRange(field));
    }
    refused_gauging(&past, command)?;
    judge_movement(facts, command, calculated)
}

// Rule 3: a tank that a command gives isn't of the site.
#[tactic(auto, unfolding(farm_history::specs::Rules::unknown_tank))]
fn unknown_tank(past: &Past<'_>, command: &Command) -> Result<(), Rule>
    ensures rule { fault_of result ≡ unknown_tank past.now command.now }
{
    if gives_unknown_tank(past, command) {
        return Err(Rule::UnknownTank);
    }
    Ok(())
}

// Whether a command gives a tank that isn't of the site.
fn gives_unknown_tank(past: &Past<'_>, command: &Command) -> bool
    ensures unknown { result ≡ list_any (λ number. is_missing (tank_after past.now number)) (tanks_given command.now) }
{
    match command {
        Command::Gauge { tank, .. }
        | Command::Dip { tank, .. }
        | Command::Sample { tank, .. }
        | Command::Opening(Plan::Outside { tank, .. })
        | Command::Settle { tank, .. } => is_missing(past, *tank),
        Command::Opening(Plan::Transfer { from, to, .. }) => {
            is_missing(past, *from) || is_missing(past, *to)
        }
        _ => false,
    }
}

// Whether the site has no tank of a number.
#[tactic(auto, unfolding(farm_history::specs::History::tank_after))]
fn is_missing(past: &Past<'_>, number: u16) -> bool
    ensures missing { result ≡ is_missing (tank_after past.now number) }
{
    past.site.tank(number).is_none()
}
