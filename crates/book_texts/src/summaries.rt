//! The summary of a book: the number of its entries, and what each tank and the terminal hold, a line each.

ghost use Rattle.std.specs.Prelude.{◌≡◌};
ghost use Rattle.book_texts.specs.Summaries.{IsSummary, entries_line, line_of_tank, summary_text, tank_line, tank_lines, total_line};
ghost use Rattle.farm_base.specs.Appended.{Appends};
ghost use Rattle.farm_history.specs.History.{last_place};
ghost use Rattle.farm_history.specs.Sites.{AreRising};
ghost use Rattle.farm_history.specs.Stocks.{book_of, total_of};
ghost use Rattle.text_pieces.specs.Pieces.{Lengthens};

use farm_base::NoMemory;
use farm_book::Book;
use farm_fixed::Amount;
use farm_history::{Query, Reply};
use farm_site::Tank;
use text_pieces::{Piece, append};

/// Appends the summary of a book: `entries N`, for each tank of the site, by rising number, `tank T litres L kg K`, and
/// `total litres L kg K`, each with its line feed.
///
/// The amounts are those that look-ups answer, with a minus below zero. On `NoMemory` the buffer is as before.
pub fn summary<const LIMIT: usize>(book: &Book<LIMIT>, out: &mut Vec<u8>) -> Result<(), NoMemory>
    ensures appended { Appends out.old.items out.new.items (summary_text book.now.history) result }
    ensures looked_up { IsSummary book.now.history (summary_text book.now.history) }
{
    let before = out.len();
    let tanks = tanks_of(book);
    let written = write_lines(book, tanks, out);
    if written.is_err() {
        out.truncate(before);
    }
    written
}

// The tanks of the site, in rising order of their numbers.
fn tanks_of<const LIMIT: usize>(book: &Book<LIMIT>) -> &[Tank]
    ensures tanks { result.now ≡ book.now.history.site.tanks }
    ensures rising { AreRising book.now.history.site }
{
    book.site().tanks.get()
}

// Appends the lines of a summary, or a prefix of them.
#[tactic(auto, unfolding(crate::specs::Summaries::summary_text))]
fn write_lines<const LIMIT: usize>(
    book: &Book<LIMIT>,
    tanks: &[Tank],
    out: &mut Vec<u8>,
) -> Result<(), NoMemory>
    requires { tanks.now ≡ book.now.history.site.tanks }
    ensures lines { Lengthens out.old.items out.new.items (summary_text book.now.history) result }
{
    write_entries(book, out)?;
    write_tanks(book, tanks, out)?;
    write_total(look_at_total(book), out)
}

// Appends the line of the number of entries.
fn write_entries<const LIMIT: usize>(book: &Book<LIMIT>, out: &mut Vec<u8>) -> Result<(), NoMemory>
    ensures line { Lengthens out.old.items out.new.items (entries_line (last_place book.now.history)) result }
{
    append(
        out,
        &[
            Piece::Text(b"entries "),
            Piece::Number(book.entries().len() as u64),
            Piece::Text(b"\n"),
        ],
    )
}

// Appends the lines of tanks.
fn write_tanks<const LIMIT: usize>(
    book: &Book<LIMIT>,
    tanks: &[Tank],
    out: &mut Vec<u8>,
) -> Result<(), NoMemory>
    ensures lines { Lengthens out.old.items out.new.items (tank_lines book.now.history tanks.now) result }
{
    for tank in tanks {
        write_tank(book, tank, out)?;
    }
    Ok(())
}

// Appends the line of a tank; none for a tank that isn't of the site.
fn write_tank<const LIMIT: usize>(
    book: &Book<LIMIT>,
    tank: &Tank,
    out: &mut Vec<u8>,
) -> Result<(), NoMemory>
    ensures line { Lengthens out.old.items out.new.items (line_of_tank book.now.history tank.now) result }
{
    match look_at_stock(book, tank.number) {
        Some(amount) => write_amount(tank.number, amount, out),
        None => Ok(()),
    }
}

// Appends the line of a tank that holds this amount.
fn write_amount(tank: u16, amount: Amount, out: &mut Vec<u8>) -> Result<(), NoMemory>
    ensures line { Lengthens out.old.items out.new.items (tank_line tank amount) result }
{
    append(
        out,
        &[
            Piece::Text(b"tank "),
            Piece::Number(u64::from(tank)),
            Piece::Text(b" litres "),
            Piece::Signed(amount.litres),
            Piece::Text(b" kg "),
            Piece::Signed(amount.kg),
            Piece::Text(b"\n"),
        ],
    )
}

// Appends the line of the total.
fn write_total(total: Amount, out: &mut Vec<u8>) -> Result<(), NoMemory>
    ensures line { Appends out.old.items out.new.items (total_line total) result }
{
    append(
        out,
        &[
            Piece::Text(b"total litres "),
            Piece::Signed(total.litres),
            Piece::Text(b" kg "),
            Piece::Signed(total.kg),
            Piece::Text(b"\n"),
        ],
    )
}

// What a look-up answers that a tank holds. `None` if and only if the site has no such tank.
#[tactic(auto, unfolding(farm_history::specs::Desk::looked_up))]
fn look_at_stock<const LIMIT: usize>(book: &Book<LIMIT>, tank: u16) -> Option<Amount>
    ensures stock { result ≡ book_of book.now.history tank }
{
    match book.look(&Query::Stock(tank)) {
        Reply::Stock { amount, .. } => Some(amount),
        _ => None,
    }
}

// What a look-up answers that the terminal holds in all.
#[tactic(auto, unfolding(farm_history::specs::Desk::looked_up))]
fn look_at_total<const LIMIT: usize>(book: &Book<LIMIT>) -> Amount
    ensures total { result ≡ total_of book.now.history }
{
    match book.look(&Query::Total) {
        Reply::Total { amount, .. } => amount,
        _ => unreachable!(),
    }
}
