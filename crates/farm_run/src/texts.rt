//! The lines that end a run with status 1, 2 or 4, and that of `init` with 3.

ghost use Rattle.std.specs.Prelude.{◌≡◌, IfOk};
ghost use Rattle.farm_run.specs.Texts.{cause_word, refusal_text, refused_at, site_refused_text, too_long_text};

use calc_input::{Cause, Refused};
use farm_base::NoMemory;
use farm_fixed::ChainRule;
use site_keys::SiteFault;
use std::alloc::Global;
use text_pieces::{Piece, append};

/// The arguments are no command.
pub const USAGE_LINE: &[u8] = b"usage: farm calc|init|table|batch|serve|report|drill\n";
/// The disk has bytes, and a journal was to be made on it.
pub const NOT_EMPTY_LINE: &[u8] = b"journal not empty\n";

/// The line of a site that its folder doesn't describe.
#[tactic(auto, unfolding(crate::specs::Texts::site_refused_text))]
pub(crate) fn site_refused_text(alloc: Global, fault: SiteFault) -> Result<Vec<u8>, NoMemory>
    ensures line { IfOk result (λ text. text.items ≡ site_refused_text fault) }
{
    let mut text = Vec::new(alloc);
    append(
        &mut text,
        &[
            Piece::Text(b"site refused: code "),
            Piece::Number(u64::from(fault.code)),
            Piece::Text(b" item "),
            Piece::Number(u64::from(fault.item)),
            Piece::Text(b" detail "),
            Piece::Number(u64::from(fault.detail)),
            Piece::Text(b"\n"),
        ],
    )?;
    Ok(text)
}

/// The line of an input that is refused.
#[tactic(auto, unfolding(crate::specs::Texts::refusal_text))]
pub(crate) fn refusal_text(alloc: Global, why: Refused) -> Result<Vec<u8>, NoMemory>
    ensures line { IfOk result (λ text. text.items ≡ refusal_text why) }
{
    refused_at(alloc, why.line, cause_word(why.cause))
}

/// The line of a batch that is refused at a line too many.
#[tactic(auto, unfolding(crate::specs::Texts::too_long_text))]
pub(crate) fn too_long_text(alloc: Global, number: u64) -> Result<Vec<u8>, NoMemory>
    ensures line { IfOk result (λ text. text.items ≡ too_long_text number) }
{
    refused_at(alloc, number, b"long")
}

// The line of an input that is refused at the line of this number, for the cause that a word says.
#[tactic(auto, unfolding(crate::specs::Texts::refused_at))]
fn refused_at(alloc: Global, number: u64, word: &[u8]) -> Result<Vec<u8>, NoMemory>
    ensures line { IfOk result (λ text. text.items ≡ refused_at number word.now) }
{
    let mut text = Vec::new(alloc);
    append(
        &mut text,
        &[
            Piece::Text(b"input refused at line "),
            Piece::Number(number),
            Piece::Text(b": "),
            Piece::Text(word),
            Piece::Text(b"\n"),
        ],
    )?;
    Ok(text)
}

// The word for what is wrong with an input.
#[tactic(auto, unfolding(crate::specs::Texts::cause_word))]
fn cause_word(cause: Cause) -> &'static [u8]
    ensures word { result.now ≡ cause_word cause }
{
    match cause {
        Cause::Form => b"form",
        Cause::Chain(ChainRule::AboveTable) => b"AboveTable",
        Cause::Chain(ChainRule::WaterAboveLevel) => b"WaterAboveLevel",
        Cause::Chain(ChainRule::NoEntry) => b"NoEntry",
        Cause::Chain(ChainRule::CriticalZone) => b"CriticalZone",
        Cause::Chain(ChainRule::Negative) => b"Negative",
    }
}
