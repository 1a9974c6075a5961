//! The line of a ticket.

ghost use Rattle.std.specs.Prelude.{◌≡◌, ◌++◌};
ghost use Rattle.farm_base.specs.Appended.{Appends};
ghost use Rattle.text_pieces.specs.Pieces.{piece_text};
ghost use Rattle.farm_ticket.specs.Line.{kind_of, reversal_text, single_line, ticket_line, transfer_line};

use crate::{Side, Ticket, Way};
use farm_fixed::NoMemory;
use text_pieces::{Piece, append};

impl Ticket {
    /// Appends the ticket's line, with its line feed: the numbers, the kind, the tanks, what moved, and what it reverses.
    ///
    /// On `NoMemory` the buffer is as before.
    #[tactic(auto, unfolding(crate::specs::Line::ticket_line))]
    pub fn write(&self, out: &mut Vec<u8>) -> Result<(), NoMemory>
        ensures line { Appends out.old.items out.new.items (ticket_line self.now) result }
    {
        match &self.second {
            None => self.write_single(out),
            Some(second) => self.write_transfer(second, out),
        }
    }

    // Appends the line of a receipt or a delivery.
    fn write_single(&self, out: &mut Vec<u8>) -> Result<(), NoMemory>
        ensures line { Appends out.old.items out.new.items (single_line self.now) result }
    {
        let (reverses, reversed) = reversal(self.reverses);
        append(
            out,
            &[
                Piece::Text(b"ticket "),
                Piece::Number(u64::from(self.number)),
                Piece::Text(b" place "),
                Piece::Number(u64::from(self.place)),
                Piece::Text(kind_of(self.first.way)),
                Piece::Text(b" tank "),
                Piece::Number(u64::from(self.first.tank)),
                Piece::Text(b" party "),
                Piece::Number(u64::from(self.party)),
                Piece::Text(b" nsv "),
                Piece::Signed(self.first.moved.nsv),
                Piece::Text(b" kg "),
                Piece::Signed(self.first.moved.mass),
                reverses,
                reversed,
                Piece::Text(b"\n"),
            ],
        )
    }

    // Appends the line of a transfer.
    fn write_transfer(&self, second: &Side, out: &mut Vec<u8>) -> Result<(), NoMemory>
        ensures line { Appends out.old.items out.new.items (transfer_line self.now second.now) result }
    {
        let (sent, received) = (self.first.moved, second.moved);
        let (reverses, reversed) = reversal(self.reverses);
        append(
            out,
            &[
                Piece::Text(b"ticket "),
                Piece::Number(u64::from(self.number)),
                Piece::Text(b" place "),
                Piece::Number(u64::from(self.place)),
                Piece::Text(b" transfer tank "),
                Piece::Number(u64::from(self.first.tank)),
                Piece::Text(b" to "),
                Piece::Number(u64::from(second.tank)),
                Piece::Text(b" nsv "),
                Piece::Signed(sent.nsv),
                Piece::Text(b" kg "),
                Piece::Signed(sent.mass),
                Piece::Text(b" received "),
                Piece::Signed(received.nsv),
                Piece::Text(b" kg "),
                Piece::Signed(received.mass),
                reverses,
                reversed,
                Piece::Text(b"\n"),
            ],
        )
    }
}

// The kind of a movement of one side, by the way of the side, with a blank in front.
fn kind_of(way: Way) -> &'static [u8]
    ensures { result.now ≡ kind_of way }
{
    match way {
        Way::Inward => b" receipt",
        Way::Outward => b" delivery",
    }
}

// What a line says of the ticket that is reversed: a word and its place, or two texts without a byte.
fn reversal(reverses: u32) -> (Piece<'static>, Piece<'static>)
    ensures { piece_text result.0 ++ piece_text result.1 ≡ reversal_text reverses }
{
    if reverses == 0 {
        (Piece::Text(b""), Piece::Text(b""))
    } else {
        (
            Piece::Text(b" reverses "),
            Piece::Number(u64::from(reverses)),
        )
    }
}
