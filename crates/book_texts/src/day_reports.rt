//! The report of a day: the balance of each tank and of all of them, and the line of each ticket.

ghost use Rattle.std.specs.Prelude.{◌≡◌, ◌+◌, ◌-◌, ◌≤◌, ◌++◌, if◌then◌else◌, length};
ghost use Rattle.calendar_days.specs.Calendar.{IsFirstSecond};
ghost use Rattle.farm_base.specs.Appended.{Appends};
ghost use Rattle.farm_history.specs.Commands.{issues_ticket};
ghost use Rattle.farm_history.specs.History.{before, last_place};
ghost use Rattle.farm_history.specs.Tickets.{next_number, ticket_at};
ghost use Rattle.history_lookups.specs.Pasts.{IsReadable};
ghost use Rattle.text_pieces.specs.Pieces.{Lengthens};
ghost use Rattle.book_texts.specs.DayReports.{IsDayReport, amount_line, balance_lines, day_report_text, head_lines, report_lines, tank_balance_lines, line_of_ticket, tanks_balance_lines, ticket_lines, total_lines};

use calendar_days::day_text;
use day_balances::{Balance, Balances, DayPlaces, places_of};
use farm_base::NoMemory;
use farm_book::Book;
use farm_fixed::Amount;
use farm_history::Command;
use farm_site::Tank;
use history_lookups::{Past, issues_ticket};
use text_pieces::{Piece, append};

/// Appends the report of the day with this first second, in UTC since 1970-01-01 00:00:00: `site NAME`, `day YYYY-MM-DD`; for each tank
/// of the site, by rising number, `tank T` and its balance; `total` and that of all; and the line of each ticket of the day, in order.
///
/// A balance has the six lines `opening`, `receipts`, `deliveries`, `transfers`, `gains` and `closing`, each with litres and kilograms. Each
/// line has its line feed. On `NoMemory` the buffer is as before.
pub fn day_report<const LIMIT: usize>(
    book: &Book<LIMIT>,
    day: i64,
    out: &mut Vec<u8>,
) -> Result<(), NoMemory>
    requires day { IsFirstSecond day }
    ensures appended { Appends out.old.items out.new.items (day_report_text book.now.history day) result }
    ensures meaning { IsDayReport book.now.history day (day_report_text book.now.history day) }
{
    let past = book.past();
    let balances = Balances::of_day(&past, day);
    let places = places_of(past.entries, day);
    let before = out.len();
    let written = write_report(&past, &day_text(day), &balances, places, out);
    if written.is_err() {
        out.truncate(before);
    }
    written
}

// Appends the lines of a report, or a prefix of them.
fn write_report(
    past: &Past<'_>,
    day: &[u8],
    balances: &Balances,
    places: DayPlaces,
    out: &mut Vec<u8>,
) -> Result<(), NoMemory>
    requires readable { IsReadable past.now }
    requires as_many { length balances.now ≡ length past.now.site.tanks }
    requires order { places.before ≤ places.through }
    requires within { places.through ≤ last_place past.now }
    ensures lines { Lengthens out.old.items out.new.items (head_lines past.now.site.name day.now
        ++ report_lines past.now balances.now places.before (places.through - places.before)) result }
{
    write_head(past.site.name.get(), day, out)?;
    write_lines(past, balances, places, out)
}

// Appends the lines of balances and tickets, or a prefix of them.
#[tactic(auto, unfolding(crate::specs::DayReports::report_lines))]
fn write_lines(
    past: &Past<'_>,
    balances: &Balances,
    places: DayPlaces,
    out: &mut Vec<u8>,
) -> Result<(), NoMemory>
    requires readable { IsReadable past.now }
    requires as_many { length balances.now ≡ length past.now.site.tanks }
    requires order { places.before ≤ places.through }
    requires within { places.through ≤ last_place past.now }
    ensures lines { Lengthens out.old.items out.new.items (report_lines past.now balances.now places.before (places.through - places.before)) result }
{
    write_tanks(past.site.tanks.get(), balances.get(), out)?;
    write_total(&balances.total(), out)?;
    write_tickets(past, places.before, places.through, out)
}

// Appends the lines of the site and the day.
#[tactic(auto, unfolding(crate::specs::DayReports::head_lines))]
fn write_head<'t>(site: &'t [u8], day: &'t [u8], out: &mut Vec<u8>) -> Result<(), NoMemory>
    ensures lines { Lengthens out.old.items out.new.items (head_lines site.now day.now) result }
{
    append(
        out,
        &[
            Piece::Text(b"site "),
            Piece::Text(site),
            Piece::Text(b"\nday "),
            Piece::Text(day),
            Piece::Text(b"\n"),
        ],
    )
}

// Appends the lines of tanks, each with its balance.
fn write_tanks(tanks: &[Tank], balances: &[Balance], out: &mut Vec<u8>) -> Result<(), NoMemory>
    requires as_many { length balances.now ≡ length tanks.now }
    ensures lines { Lengthens out.old.items out.new.items (tanks_balance_lines tanks.now balances.now) result }
{
    for (index, tank) in tanks.iter().enumerate() {
        write_tank(tank.number, &balances[index], out)?;
    }
    Ok(())
}

// Appends the lines of a tank with this balance.
#[tactic(auto, unfolding(crate::specs::DayReports::tank_balance_lines))]
fn write_tank(tank: u16, balance: &Balance, out: &mut Vec<u8>) -> Result<(), NoMemory>
    ensures lines { Lengthens out.old.items out.new.items (tank_balance_lines tank balance.now) result }
{
    append(
        out,
        &[
            Piece::Text(b"tank "),
            Piece::Number(u64::from(tank)),
            Piece::Text(b"\n"),
        ],
    )?;
    write_balance(balance, out)
}

// Appends the lines of the total.
#[tactic(auto, unfolding(crate::specs::DayReports::total_lines))]
fn write_total(total: &Balance, out: &mut Vec<u8>) -> Result<(), NoMemory>
    ensures lines { Lengthens out.old.items out.new.items (total_lines total.now) result }
{
    append(out, &[Piece::Text(b"total\n")])?;
    write_balance(total, out)
}

// Appends the six lines of a balance.
#[tactic(auto, unfolding(crate::specs::DayReports::balance_lines))]
fn write_balance(balance: &Balance, out: &mut Vec<u8>) -> Result<(), NoMemory>
    ensures lines { Lengthens out.old.items out.new.items (balance_lines balance.now) result }
{
    write_amount(b"opening ", balance.opening, out)?;
    write_amount(b"receipts ", balance.receipts, out)?;
    write_amount(b"deliveries ", balance.deliveries, out)?;
    write_amount(b"transfers ", balance.transfers, out)?;
    write_amount(b"gains ", balance.gains, out)?;
    write_amount(b"closing ", balance.closing, out)
}

// Appends the line of an amount after this word.
#[tactic(auto, unfolding(crate::specs::DayReports::amount_line))]
fn write_amount(word: &[u8], amount: Amount, out: &mut Vec<u8>) -> Result<(), NoMemory>
    ensures line { Lengthens out.old.items out.new.items (amount_line word.now amount) result }
{
    append(
        out,
        &[
            Piece::Text(word),
            Piece::Signed(amount.litres),
            Piece::Text(b" "),
            Piece::Signed(amount.kg),
            Piece::Text(b"\n"),
        ],
    )
}

// Appends the lines of the tickets of the entries after the first `before` up to the first `through`. Their numbers are counted along.
fn write_tickets(
    past: &Past<'_>,
    before: usize,
    through: usize,
    out: &mut Vec<u8>,
) -> Result<(), NoMemory>
    requires readable { IsReadable past.now }
    requires order { before ≤ through }
    requires within { through ≤ last_place past.now }
    ensures lines { Lengthens out.old.items out.new.items (ticket_lines past.now before (through - before)) result }
{
    let mut number = first(past, before).next_number();
    for index in before..through {
        write_ticket(past, index as u32 + 1, number, out)?;
        number = number_after(number, &past.entries[index].cmd);
    }
    Ok(())
}

// Appends the line of the ticket of a place, if it has one, whose number is this.
fn write_ticket(past: &Past<'_>, place: u32, number: u32, out: &mut Vec<u8>) -> Result<(), NoMemory>
    requires readable { IsReadable past.now }
    requires number { number ≡ next_number (before past.now place) }
    ensures line { Lengthens out.old.items out.new.items (line_of_ticket (ticket_at past.now place)) result }
{
    match past.ticket_numbered(place, number) {
        Some(ticket) => ticket.write(out),
        None => Ok(()),
    }
}

// The number of the next ticket after a command, before which it was this.
fn number_after(number: u32, command: &Command) -> u32
    requires few { number ≤ 2000000 }
    ensures next { result ≡ (if issues_ticket command.now then number + 1 else number) }
{
    if issues_ticket(command) {
        return number + 1;
    }
    number
}

// The site and its first entries.
fn first<'p>(past: &Past<'p>, count: usize) -> Past<'p>
    requires within { count ≤ last_place past.now }
    ensures first { result ≡ before past.now (count + 1) }
{
    Past {
        site: past.site,
        entries: &past.entries[..count],
    }
}
