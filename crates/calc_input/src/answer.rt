//! From the bytes of an input to its ten figures, or to the refusal.

ghost use Rattle.std.specs.Prelude.{◌≡◌, ◌≤◌, length, pos, Ok, Err, IfOk, IfSome, MatchResult};
ghost use Rattle.farm_fixed.specs.Range.{IsWithin};
ghost use Rattle.farm_rounding.specs.Table.{usual_rows};
ghost use Rattle.strap_table.specs.Roofs.{IsFloatingRoof};
ghost use Rattle.farm_chain.specs.Reading.{calculated_quantities};
ghost use Rattle.calc_input.specs.declared.refusal.Refused.{Refused};
ghost use Rattle.calc_input.specs.declared.answer.NoFigures.TheVariants as variants;
ghost use Rattle.calc_input.specs.VolumesLine.{IsCalculable};
ghost use Rattle.calc_input.specs.LevelsLine.{IsGauged};
ghost use Rattle.calc_input.specs.Forms.{CanBeCalculated};
ghost use Rattle.calc_input.specs.Answer.{FrontDecides, answer_of, figures_of_form, figures_of_volumes, figures_or_refused, last_line, over_line, roof_on, tank_of};
ghost use Rattle.calc_input.specs.RefusedLine.{AreInForm, IsRefusal, OneRefusedLine};

use crate::fault::FormFault;
use crate::forms::{Input, TableInput};
use crate::levels_line::Levels;
use crate::lines::line_feeds;
use crate::volumes_line::Volumes;
use crate::{Cause, Refused};
use farm_base::NoMemory;
use farm_chain::{figures, quantities};
use farm_fixed::{ChainRule, MOST_COEFFICIENT, Mm, Quantities};
use farm_rounding::RoundTable;
use std::alloc::{AllocError, Global};
use strap_table::{Roof, TankSpec};

/// An input has at most this many bytes.
pub const MOST_INPUT_BYTES: usize = 1_048_576;

/// Why there are no figures.
#[derive(Clone, Copy, Debug, PartialEq, Eq)]
pub enum NoFigures {
    /// There was no memory.
    NoMemory,
    /// The input is refused.
    Refused(Refused),
}

impl From<AllocError> for NoFigures {
    ghost from_gives = { λ _ e. e ≡ variants.NoMemory };

    fn from(_: AllocError) -> Self {
        NoFigures::NoMemory
    }
}

impl From<NoMemory> for NoFigures {
    ghost from_gives = { λ _ e. e ≡ variants.NoMemory };

    fn from(_: NoMemory) -> Self {
        NoFigures::NoMemory
    }
}

/// The figures of an input, or its refusal.
///
/// An input over the limit is refused at the line of the first byte over it, or at an earlier malformed line. A prefix of
/// an input that holds one byte more than the limit has the refusal of the whole input.
pub fn figures_of_input(alloc: Global, bytes: &[u8]) -> Result<Quantities, NoFigures>
    ensures figures { IfOk result (λ figures. answer_of bytes.now ≡ Ok figures) }
    ensures refused { (why : Refused) → result ≡ Err (NoFigures.Refused why) → answer_of bytes.now ≡ Err why }
    ensures in_form { IfOk result (λ figures. AreInForm bytes.now) }
    ensures refused_line { (why : Refused) → result ≡ Err (NoFigures.Refused why) → IsRefusal bytes.now why.line why.cause }
{
    answer_of(alloc, bytes)
}

/// Does nothing: its contract is the laws that an input has one refused line at most, and that a prefix over the limit decides.
pub fn input_laws()
    ensures one_refused_line { OneRefusedLine }
    ensures front_decides { FrontDecides }
{}

// The figures of an input, or its refusal, by the lines of the input.
#[tactic(auto, unfolding(crate::specs::Answer::answer_of))]
fn answer_of(alloc: Global, bytes: &[u8]) -> Result<Quantities, NoFigures>
    ensures figures { IfOk result (λ figures. answer_of bytes.now ≡ Ok figures) }
    ensures refused { (why : Refused) → result ≡ Err (NoFigures.Refused why) → answer_of bytes.now ≡ Err why }
{
    if bytes.len() > MOST_INPUT_BYTES {
        let line = over_line(alloc, bytes)?;
        return Err(refused_at(line, Cause::Form));
    }
    match Input::of_bytes(alloc, bytes) {
        Ok(input) => figures_of_form(&input),
        Err(FormFault::NoMemory) => Err(NoFigures::NoMemory),
        Err(FormFault::Line(line)) => Err(refused_at(line, Cause::Form)),
    }
}

// The figures of a form, or the refusal of its last line by the calculation.
fn figures_of_form(input: &Input) -> Result<Quantities, NoFigures>
    requires { CanBeCalculated input.now }
    ensures figures { IfOk result (λ figures. figures_or_refused (last_line input.now) (figures_of_form input.now) ≡ Ok figures) }
    ensures refused { (why : Refused) → result ≡ Err (NoFigures.Refused why) → figures_or_refused (last_line input.now) (figures_of_form input.now) ≡ Err why }
{
    match calculated(input) {
        Ok(figures) => Ok(figures),
        Err(rule) => Err(refused_at(last_line(input), Cause::Chain(rule))),
    }
}

// The number of the last line that isn't blank.
fn last_line(input: &Input) -> usize
    ensures { result ≡ last_line input.now }
{
    match input {
        Input::Observed(_) => 1,
        Input::Table(input) => input.line,
    }
}

// The line at which an input over the limit is refused: that of the first byte over it, or a malformed one before.
#[tactic(auto, unfolding(crate::specs::Answer::over_line))]
fn over_line(alloc: Global, bytes: &[u8]) -> Result<usize, NoFigures>
    requires { MOST_INPUT_BYTES ≤ length bytes.now }
    ensures { MatchResult result (λ line. line ≡ over_line bytes.now) (λ fault. fault ≡ variants.NoMemory) }
{
    let front = &bytes[..MOST_INPUT_BYTES];
    let over = line_feeds(front) + 1;
    match Input::of_bytes(alloc, front) {
        Ok(_) => Ok(over),
        Err(FormFault::NoMemory) => Err(NoFigures::NoMemory),
        Err(FormFault::Line(line)) => Ok(line.min(over)),
    }
}

// The figures of a form, by the usual rounding table.
#[tactic(auto, unfolding(crate::specs::Answer::figures_of_form))]
fn calculated(input: &Input) -> Result<Quantities, ChainRule>
    requires { CanBeCalculated input.now }
    ensures { result ≡ figures_of_form input.now }
{
    match input {
        Input::Observed(volumes) => figures_of_volumes(volumes),
        Input::Table(input) => figures_of_levels(input),
    }
}

// The figures of levels.
fn figures_of_levels(input: &TableInput) -> Result<Quantities, ChainRule>
    requires { IsGauged input.now.levels }
    ensures { result ≡ calculated_quantities usual_rows (tank_of input.now.levels) input.now.table input.now.vcf input.now.levels.reading input.now.levels.sample }
{
    let levels = &input.levels;
    let tank = tank_of(levels);
    quantities(
        &tank,
        &input.table,
        &input.vcf,
        &RoundTable::usual(),
        &levels.reading,
        &levels.sample,
    )
}

// The tank that a line of levels describes. Its reference height is not used.
fn tank_of(levels: &Levels) -> TankSpec
    requires { IsGauged levels.now }
    ensures value { result ≡ tank_of levels.now }
    ensures coefficient { IsWithin (pos 0) MOST_COEFFICIENT result.shell.coefficient }
    ensures roof { IfSome result.roof IsFloatingRoof }
{
    TankSpec {
        shell: levels.shell,
        height: Mm::in_range(0),
        roof: roof_on(levels.roof),
    }
}

// A roof without mass is no roof.
fn roof_on(roof: Roof) -> Option<Roof>
    requires { IsFloatingRoof roof }
    ensures value { result ≡ roof_on roof }
    ensures roof { IfSome result IsFloatingRoof }
{
    if roof.mass.get() == 0 {
        None
    } else {
        Some(roof)
    }
}

// The figures of observed volumes, by the usual rounding table.
#[tactic(auto, unfolding(crate::specs::Answer::figures_of_volumes))]
fn figures_of_volumes(volumes: &Volumes) -> Result<Quantities, ChainRule>
    requires { IsCalculable volumes.now }
    ensures { result ≡ figures_of_volumes volumes.now }
{
    figures(
        volumes.tov,
        volumes.fw,
        &volumes.shell,
        volumes.liquid,
        volumes.ambient,
        volumes.floating,
        &volumes.sample,
        volumes.vcf,
        &RoundTable::usual(),
    )
}

// A refusal at this line.
fn refused_at(line: usize, cause: Cause) -> NoFigures
    ensures { result ≡ NoFigures.Refused (record { line = line; cause = cause }) }
{
    NoFigures::Refused(Refused {
        line: line as u64,
        cause,
    })
}
