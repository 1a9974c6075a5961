//! The bodies of tickets. A function whose name begins with `write` appends its text, or fails after a prefix of it.

ghost use Rattle.std.specs.Prelude.{◌≡◌, ◌++◌};
ghost use Rattle.farm_base.specs.Appended.{Appends};
ghost use Rattle.text_pieces.specs.Pieces.{Lengthens};
ghost use Rattle.farm_http.specs.Bodies.{figures_text, moved_text, side_text, ticket_text};
ghost use Rattle.farm_http.specs.Tickets.{way_word};

use farm_base::NoMemory;
use farm_fixed::Quantities;
use farm_ticket::{Moved, Side, Ticket, Way};
use text_pieces::{Piece, append};

/// Appends the body of a ticket. On `NoMemory` the buffer is as before.
pub(crate) fn append_ticket(ticket: &Ticket, out: &mut Vec<u8>) -> Result<(), NoMemory>
    ensures appended { Appends out.old.items out.new.items (ticket_text ticket.now) result }
{
    let before = out.len();
    let written = write_ticket(ticket, out);
    if written.is_err() {
        out.truncate(before);
    }
    written
}

// The body of a ticket.
fn write_ticket(ticket: &Ticket, out: &mut Vec<u8>) -> Result<(), NoMemory>
    ensures ticket { Lengthens out.old.items out.new.items (ticket_text ticket.now) result }
{
    append(
        out,
        &[
            Piece::Text(b"{\"movement\":"),
            Piece::Number(u64::from(ticket.movement)),
            Piece::Text(b",\"number\":"),
            Piece::Number(u64::from(ticket.number)),
            Piece::Text(b",\"party\":"),
            Piece::Number(u64::from(ticket.party)),
            Piece::Text(b",\"place\":"),
            Piece::Number(u64::from(ticket.place)),
            Piece::Text(b",\"reverses\":"),
            Piece::Number(u64::from(ticket.reverses)),
            Piece::Text(b",\"sides\":["),
        ],
    )?;
    match &ticket.second {
        None => write_side(&ticket.first, b"]}", out),
        Some(second) => {
            write_side(&ticket.first, b",", out)?;
            write_side(second, b"]}", out)
        }
    }
}

// A side, and a text after it.
fn write_side(side: &Side, end: &[u8], out: &mut Vec<u8>) -> Result<(), NoMemory>
    ensures side { Lengthens out.old.items out.new.items (side_text side.now ++ end.now) result }
{
    write_figures(b"{\"closing\":", &side.closing, out)?;
    write_moved(b",\"moved\":", &side.moved, out)?;
    write_figures(b",\"opening\":", &side.opening, out)?;
    append(
        out,
        &[
            Piece::Text(b",\"tank\":"),
            Piece::Number(u64::from(side.tank)),
            Piece::Text(b",\"way\":\""),
            Piece::Text(way_word(side.way)),
            Piece::Text(b"\"}"),
            Piece::Text(end),
        ],
    )
}

// A text, and the ten figures after it.
fn write_figures(front: &[u8], figures: &Quantities, out: &mut Vec<u8>) -> Result<(), NoMemory>
    ensures figures { Appends out.old.items out.new.items (front.now ++ figures_text figures.now) result }
{
    append(
        out,
        &[
            Piece::Text(front),
            Piece::Text(b"{\"ctsh\":"),
            Piece::Signed(figures.ctsh.get()),
            Piece::Text(b",\"fra\":"),
            Piece::Signed(figures.fra.get()),
            Piece::Text(b",\"fw\":"),
            Piece::Signed(figures.fw.get()),
            Piece::Text(b",\"gov\":"),
            Piece::Signed(figures.gov.get()),
            Piece::Text(b",\"gsv\":"),
            Piece::Signed(figures.gsv.get()),
            Piece::Text(b",\"mass\":"),
            Piece::Signed(figures.mass.get()),
            Piece::Text(b",\"nsv\":"),
            Piece::Signed(figures.nsv.get()),
            Piece::Text(b",\"swv\":"),
            Piece::Signed(figures.swv.get()),
            Piece::Text(b",\"tov\":"),
            Piece::Signed(figures.tov.get()),
            Piece::Text(b",\"vcf\":"),
            Piece::Signed(figures.vcf.get()),
            Piece::Text(b"}"),
        ],
    )
}

// A text, and what moved after it.
fn write_moved(front: &[u8], moved: &Moved, out: &mut Vec<u8>) -> Result<(), NoMemory>
    ensures moved { Appends out.old.items out.new.items (front.now ++ moved_text moved.now) result }
{
    append(
        out,
        &[
            Piece::Text(front),
            Piece::Text(b"{\"gsv\":"),
            Piece::Signed(moved.gsv),
            Piece::Text(b",\"kg\":"),
            Piece::Signed(moved.mass),
            Piece::Text(b",\"nsv\":"),
            Piece::Signed(moved.nsv),
            Piece::Text(b",\"swv\":"),
            Piece::Signed(moved.swv),
            Piece::Text(b"}"),
        ],
    )
}

// The word of a way.
fn way_word(way: Way) -> &'static [u8]
    ensures word { result.now ≡ way_word way }
{
    match way {
        Way::Inward => b"in",
        Way::Outward => b"out",
    }
}
