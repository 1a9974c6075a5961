//! The two forms of an input: observed volumes, and levels with a capacity table and a factor grid.

ghost use Rattle.std.specs.Prelude.{◌≡◌, ℕ, ◌≤◌, ◌+◌, ◌^◌, List, codes, drop, length, map, pos, IfOk, MatchResult, Ok};
ghost use Rattle.std.specs.Str.{bytes_eq};
ghost use Rattle.farm_base.specs.Steps.{IsRefusedAs, or_fault};
ghost use Rattle.calc_input.specs.Lines.{line_at, lines_of, words_of};
ghost use Rattle.calc_input.specs.Fields.{word_at};
ghost use Rattle.calc_input.specs.VolumesLine.{IsCalculable};
ghost use Rattle.calc_input.specs.TableRows.{counted, rows_from};
ghost use Rattle.calc_input.specs.LevelsLine.{IsGauged, levels_of};
ghost use Rattle.calc_input.specs.Forms.{CanBeCalculated, first_used, form_of, refused_line, table_input_of, volumes_input_of};

use crate::factor_rows::grid_from;
use crate::fault::FormFault;
use crate::levels_line::Levels;
use crate::lines::{Lines, is_blank_line, words_of};
use crate::table_rows::{counted, rows_of};
use crate::volumes_line::Volumes;
use farm_vcf::{MOST_FACTORS, Vcf};
use std::alloc::Global;
use strap_table::{CapTable, LEAST_ROWS, MOST_ROWS};

/// The form `table`: levels of a tank, with its capacity table and its factors.
#[derive(Debug, Drop)]
pub struct TableInput {
    /// The volume at each height.
    pub table: CapTable,
    /// The volume correction factors.
    pub vcf: Vcf,
    /// The levels, temperatures and sample.
    pub levels: Levels,
    /// The number of the line of levels, counted from 1.
    pub line: usize,
}

/// What an input asks to calculate.
#[derive(Debug, Drop)]
pub enum Input {
    /// Observed volumes.
    Observed(Volumes),
    /// Levels.
    Table(TableInput),
}

impl Input {
    // The form of an input, by the name that its first line begins with, or the first line that isn't in form.
    #[tactic(auto, unfolding(crate::specs::Forms::form_of))]
    pub(crate) fn of_bytes(alloc: Global, bytes: &[u8]) -> Result<Input, FormFault>
        ensures form { MatchResult result (λ form. form_of (lines_of bytes.now) ≡ Ok form)
            (λ fault. IsRefusedAs (refused_line fault) (form_of (lines_of bytes.now))) }
        ensures ranges { IfOk result CanBeCalculated }
    {
        let mut lines = Lines::new(bytes);
        let words = words_of(alloc, lines.due())?;
        if begins_table(&words) {
            Ok(Input::Table(TableInput::of_lines(alloc, &words, &mut lines)?))
        } else {
            Ok(Input::Observed(volumes_input_of(&words, &mut lines)?))
        }
    }
}

impl TableInput {
    // What the lines of the form `table` say, by the words of the first one and the lines after it, or the first line that
    // isn't in form.
    #[tactic(auto, unfolding(crate::specs::Forms::table_input_of))]
    fn of_lines(
        alloc: Global,
        words: &[&[u8]],
        lines: &mut Lines<'_>,
    ) -> Result<TableInput, FormFault>
        ensures form { (all : List (List ℕ)) → map (λ word. word.now) words.now ≡ words_of (line_at all 0) → lines.old ≡ drop 1 all →
            MatchResult result (λ input. table_input_of all ≡ Ok input) (λ fault. IsRefusedAs (refused_line fault) (table_input_of all)) }
        ensures ranges { IfOk result (λ input. IsGauged input.levels) }
    {
        let count = count_of(words, 1, b"table", LEAST_ROWS as u128, MOST_ROWS as u128)?;
        let table = table_of(alloc, count, lines)?;
        let many = factors_due(alloc, lines.due(), count + 2)?;
        let vcf = grid_from(alloc, many, count + 2, lines)?;
        let line = count + many + 3;
        let levels = levels_due(alloc, lines.due(), line)?;
        match first_used(lines, line) {
            Some(number) => Err(FormFault::Line(number)),
            None => Ok(TableInput {
                table,
                vcf,
                levels,
                line,
            }),
        }
    }
}

// Whether the words of a line begin with the name of the form `table`.
fn begins_table(words: &[&[u8]]) -> bool
    ensures { result ≡ bytes_eq (word_at (map (λ word. word.now) words.now) 0) (codes "table") }
{
    match words.first() {
        Some(word) => *word == b"table".as_slice(),
        None => false,
    }
}

// What the one line of observed volumes says, by its words and the lines after it, or the first line that isn't in form.
#[tactic(auto, unfolding(crate::specs::Forms::volumes_input_of))]
fn volumes_input_of(words: &[&[u8]], lines: &mut Lines<'_>) -> Result<Volumes, FormFault>
    requires few { length lines.old ≤ 2 ^ 63 }
    ensures form { (all : List (List ℕ)) → map (λ word. word.now) words.now ≡ words_of (line_at all 0) → lines.old ≡ drop 1 all →
        MatchResult result (λ volumes. volumes_input_of all ≡ Ok volumes) (λ fault. IsRefusedAs (refused_line fault) (volumes_input_of all)) }
    ensures ranges { IfOk result IsCalculable }
{
    let Some(volumes) = Volumes::of_words(words) else {
        return Err(FormFault::Line(1));
    };
    match first_used(lines, 1) {
        Some(number) => Err(FormFault::Line(number)),
        None => Ok(volumes),
    }
}

// The count that the words of a line give after its name.
fn count_of(
    words: &[&[u8]],
    number: usize,
    name: &[u8],
    least: u128,
    most: u128,
) -> Result<usize, FormFault>
    requires { most ≤ MOST_FACTORS }
    ensures count { MatchResult result (λ count. or_fault number (counted name.now least most (map (λ word. word.now) words.now)) ≡ Ok count)
        (λ fault. IsRefusedAs (refused_line fault) (or_fault number (counted name.now least most (map (λ word. word.now) words.now)))) }
    ensures least { IfOk result (λ count. least ≤ count) }
    ensures most { IfOk result (λ count. count ≤ most) }
{
    match counted(words, name, least, most) {
        Some(count) => Ok(count as usize),
        None => Err(FormFault::Line(number)),
    }
}

// The number of factors that a line gives.
fn factors_due(alloc: Global, line: &[u8], number: usize) -> Result<usize, FormFault>
    ensures count { MatchResult result (λ count. or_fault number (counted (codes "factors") 1 MOST_FACTORS (words_of line.now)) ≡ Ok count)
        (λ fault. IsRefusedAs (refused_line fault) (or_fault number (counted (codes "factors") 1 MOST_FACTORS (words_of line.now)))) }
    ensures least { IfOk result (λ count. 1 ≤ count) }
    ensures most { IfOk result (λ count. count ≤ MOST_FACTORS) }
{
    let words = words_of(alloc, line)?;
    count_of(&words, number, b"factors", 1, MOST_FACTORS as u128)
}

// The capacity table of `count` lines after the first.
fn table_of(alloc: Global, count: usize, lines: &mut Lines<'_>) -> Result<CapTable, FormFault>
    requires least { LEAST_ROWS ≤ count }
    requires most { count ≤ MOST_ROWS }
    ensures rows { (all : List (List ℕ)) → lines.old ≡ drop 1 all → MatchResult result (λ table. rows_from count 1 (pos 0) all ≡ Ok table)
        (λ fault. IsRefusedAs (refused_line fault) (rows_from count 1 (pos 0) all)) }
    ensures rest { IfOk result (λ _. lines.new ≡ drop count lines.old) }
{
    let rows = rows_of(alloc, count, lines)?;
    Ok(CapTable::from_rows(rows).unwrap())
}

// The levels that a line says.
fn levels_due(alloc: Global, line: &[u8], number: usize) -> Result<Levels, FormFault>
    ensures levels { MatchResult result (λ levels. or_fault number (levels_of (words_of line.now)) ≡ Ok levels)
        (λ fault. IsRefusedAs (refused_line fault) (or_fault number (levels_of (words_of line.now)))) }
    ensures ranges { IfOk result IsGauged }
{
    let words = words_of(alloc, line)?;
    match Levels::of_words(&words) {
        Some(levels) => Ok(levels),
        None => Err(FormFault::Line(number)),
    }
}

// The number of the first line that isn't blank, after the line with the number `last`.
fn first_used(lines: &mut Lines<'_>, last: usize) -> Option<usize>
    requires last { last ≤ MOST_ROWS + MOST_FACTORS + 3 }
    requires few { length lines.old ≤ 2 ^ 63 }
    ensures { result ≡ first_used (last + 1) lines.old }
{
    let mut number = last;
    while let Some(line) = lines.next() {
        number += 1;
        if !is_blank_line(line) {
            return Some(number);
        }
    }
    None
}
