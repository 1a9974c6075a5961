//! The bodies of answers.

ghost use Rattle.farm_base.specs.Appended.{Appends};
ghost use Rattle.farm_http.specs.PageTexts.{IsAnswer, body_text};
ghost use Rattle.farm_http.specs.Bodies.{GainInBytes, PlaceInBytes, RefusalInBytes, StatusInBytes, StockInBytes, TicketInBytes, TotalInBytes, gain_text, reply_text, stock_text, total_text};

use crate::Page;
use crate::tickets::append_ticket;
use farm_base::NoMemory;
use farm_fixed::Amount;
use farm_history::Reply;
use text_pieces::{Piece, append};

/// Appends the body of an answer. On `NoMemory` the buffer is as before.
pub fn body(page: &Page, out: &mut Vec<u8>) -> Result<(), NoMemory>
    requires page { IsAnswer page.now }
    ensures appended { Appends out.old.items out.new.items (body_text page.now) result }
{
    match page {
        Page::Reply(reply) => append_reply(reply, out),
        Page::Status(status, _) => append(
            out,
            &[
                Piece::Text(b"{\"error\":"),
                Piece::Number(u64::from(*status)),
                Piece::Text(b"}"),
            ],
        ),
    }
}

// Appends the body of a reply.
fn append_reply(reply: &Reply, out: &mut Vec<u8>) -> Result<(), NoMemory>
    ensures appended { Appends out.old.items out.new.items (reply_text reply.now) result }
{
    match reply {
        Reply::Placed(place) => append(
            out,
            &[
                Piece::Text(b"{\"place\":"),
                Piece::Number(u64::from(*place)),
                Piece::Text(b"}"),
            ],
        ),
        Reply::Ticket(ticket) => append_ticket(ticket, out),
        Reply::Gain { place, amount } => append_gain(*place, amount, out),
        Reply::Stock {
            tank,
            amount,
            reading,
            sample,
        } => append_stock(*tank, amount, *reading, *sample, out),
        Reply::Total { entries, amount } => append_total(*entries, amount, out),
        Reply::Refused(rule) => append(
            out,
            &[
                Piece::Text(b"{\"rule\":"),
                Piece::Number(u64::from(rule.number())),
                Piece::Text(b",\"value\":"),
                Piece::Number(u64::from(rule.value())),
                Piece::Text(b"}"),
            ],
        ),
    }
}

// Appends the body of a gain.
fn append_gain(place: u32, amount: &Amount, out: &mut Vec<u8>) -> Result<(), NoMemory>
    ensures appended { Appends out.old.items out.new.items (gain_text place amount.now) result }
{
    append(
        out,
        &[
            Piece::Text(b"{\"gain\":{\"kg\":"),
            Piece::Signed(amount.kg),
            Piece::Text(b",\"litres\":"),
            Piece::Signed(amount.litres),
            Piece::Text(b"},\"place\":"),
            Piece::Number(u64::from(place)),
            Piece::Text(b"}"),
        ],
    )
}

// Appends the body of a stock.
fn append_stock(
    tank: u16,
    amount: &Amount,
    reading: u32,
    sample: u32,
    out: &mut Vec<u8>,
) -> Result<(), NoMemory>
    ensures appended { Appends out.old.items out.new.items (stock_text tank amount.now reading sample) result }
{
    append(
        out,
        &[
            Piece::Text(b"{\"kg\":"),
            Piece::Signed(amount.kg),
            Piece::Text(b",\"litres\":"),
            Piece::Signed(amount.litres),
            Piece::Text(b",\"reading\":"),
            Piece::Number(u64::from(reading)),
            Piece::Text(b",\"sample\":"),
            Piece::Number(u64::from(sample)),
            Piece::Text(b",\"tank\":"),
            Piece::Number(u64::from(tank)),
            Piece::Text(b"}"),
        ],
    )
}

// Appends the body of a total.
fn append_total(entries: u32, amount: &Amount, out: &mut Vec<u8>) -> Result<(), NoMemory>
    ensures appended { Appends out.old.items out.new.items (total_text entries amount.now) result }
{
    append(
        out,
        &[
            Piece::Text(b"{\"entries\":"),
            Piece::Number(u64::from(entries)),
            Piece::Text(b",\"kg\":"),
            Piece::Signed(amount.kg),
            Piece::Text(b",\"litres\":"),
            Piece::Signed(amount.litres),
            Piece::Text(b"}"),
        ],
    )
}

/// Does nothing: its contract says what bodies are, byte by byte.
pub fn answer_laws()
    ensures place { PlaceInBytes }
    ensures ticket { TicketInBytes }
    ensures gain { GainInBytes }
    ensures stock { StockInBytes }
    ensures total { TotalInBytes }
    ensures refusal { RefusalInBytes }
    ensures status { StatusInBytes }
{}
