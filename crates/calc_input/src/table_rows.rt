//! The counted lines of the form `table`: a name and a count, and the volumes of the capacity table.

ghost use Rattle.std.specs.Prelude.{◌≡◌, ℕ, ◌≤◌, List, drop, map, pos, IfOk, IfSome, MatchResult, Ok};
ghost use Rattle.farm_base.specs.Steps.{IsRefusedAs};
ghost use Rattle.farm_base.specs.Bytes.{is_blank};
ghost use Rattle.strap_table.specs.declared.faults.TheConstants.{MOST_ROWS};
ghost use Rattle.calc_input.specs.Lines.{words_of};
ghost use Rattle.calc_input.specs.Forms.{refused_line};
ghost use Rattle.calc_input.specs.TableRows.{counted, row_of, rows_from, volume_in};

use crate::fault::FormFault;
use crate::fields::{digits_of, volume_of};
use crate::lines::Lines;
use farm_base::is_blank;
use farm_fixed::Litres;
use std::alloc::Global;

// A count in a range, after its name.
pub(crate) fn counted(words: &[&[u8]], name: &[u8], least: u128, most: u128) -> Option<u128>
    ensures value { result ≡ counted name.now least most (map (λ word. word.now) words.now) }
    ensures least { IfSome result (λ count. least ≤ count) }
    ensures most { IfSome result (λ count. count ≤ most) }
{
    let [word, number] = words else {
        return None;
    };
    if *word != name {
        return None;
    }
    let count = digits_of(number)?;
    if count < least || count > most {
        return None;
    }
    Some(count)
}

// The volumes of a capacity table: this many lines after the first.
pub(crate) fn rows_of(
    alloc: Global,
    count: usize,
    lines: &mut Lines<'_>,
) -> Result<Vec<i64>, FormFault>
    requires { count ≤ MOST_ROWS }
    ensures rows { (all : List (List ℕ)) → lines.old ≡ drop 1 all → MatchResult result (λ rows. rows_from count 1 (pos 0) all ≡ Ok rows.items)
        (λ fault. IsRefusedAs (refused_line fault) (rows_from count 1 (pos 0) all)) }
    ensures rest { IfOk result (λ _. lines.new ≡ drop count lines.old) }
{
    let mut rows = Vec::with_capacity(alloc, count)?;
    let mut before = Litres::in_range(0);
    for index in 0..count {
        match row_of(before, lines.due()) {
            Some(row) => {
                rows.push(row.get())?;
                before = row;
            }
            None => return Err(FormFault::Line(index + 2)),
        }
    }
    Ok(rows)
}

// A volume of the table, not below the one before.
#[tactic(auto, unfolding(crate::specs::TableRows::row_of))]
fn row_of(before: Litres, line: &[u8]) -> Option<Litres>
    ensures { result ≡ row_of before line.now }
{
    let row = volume_in(line)?;
    if row.get() < before.get() {
        return None;
    }
    Some(row)
}

// The volume that is the only word of a line.
fn volume_in(line: &[u8]) -> Option<Litres>
    ensures { result ≡ volume_in (words_of line.now) }
{
    let mut words = line
        .split(|byte| is_blank(*byte))
        .filter(|word| !word.is_empty());
    let word = words.next()?;
    match words.next() {
        Some(_) => None,
        None => volume_of(word),
    }
}
