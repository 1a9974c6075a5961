//! An exchange: a request, and the page that answers it.

ghost use Rattle.std.specs.Prelude.{◌≡◌, ◌≢◌, drop, OnOk};
ghost use Rattle.farm_base.specs.Counts.{Counts};
ghost use Rattle.farm_history.specs.Desk.{IsWellFormedAsk};
ghost use Rattle.http_requests.specs.Hearing.{IsHeard};
ghost use Rattle.desk_posts.specs.Calls.{AnswersOne, AsksWellFormed, IsMeant, MeansReply, meant_by};
ghost use Rattle.desk_posts.specs.Exchanges.{ends_after, size_of};

use crate::pages::{DISK_FAULT, OUT_OF_MEMORY, put_page};
use crate::room::PostRoom;
use desk_access::DeskAccess;
use farm_history::Ask;
use farm_http::Page;
use farm_ports::{Clock, Failed, Sink, Source};
use http_requests::{Asked, Heard};
use journaled_book::Answer;
use std::alloc::Global;

/// Answers a request that was heard of the bytes in hand, and drops its bytes: the desk is asked what the request asks, and a page is put.
///
/// If there is no memory for the page, that of 507 is put in its place.
pub(crate) fn exchange<P: Source + Sink, A: DeskAccess, C: Clock>(
    alloc: Global,
    room: &mut PostRoom,
    conn: &mut P,
    access: &mut A,
    clock: &C,
    heard: Heard,
) -> Result<(), Failed>
    requires heard { IsHeard room.old heard }
    requires request { heard ≢ Heard.Need }
    requires well_formed { AsksWellFormed heard }
    ensures answered { AnswersOne A.may_follow (C.may_give clock.now) A.limit heard (A.state access.old) (A.state access.new)
        (P.held conn.old) (P.held conn.new) result }
    ensures in_hand { room.new ≡ drop (size_of heard) room.old }
    ensures keeps { A.keeps access.old access.new }
    ensures stream { P.stream conn.new ≡ P.stream conn.old }
    ensures counts { Counts (P.faults conn.old) (P.faults conn.new) result }
{
    A::access_laws();
    http_requests::request_laws();
    let last = ends_after(&heard);
    room.pass(size_of(&heard));
    let page = meant_page(access, clock, heard);
    put_page(alloc, &page, last, &mut room.page, conn)
}

/// Whether a connection ends with a request: it is broken, can't be heard, or says so.
pub(crate) fn ends_after(heard: &Heard) -> bool
    ensures last { result ≡ ends_after heard.now }
{
    match heard {
        Heard::Need => false,
        Heard::NoMemory | Heard::Broken(_) => true,
        Heard::Got { last, .. } => *last,
    }
}

// How many bytes a request has.
fn size_of(heard: &Heard) -> usize
    ensures size { result ≡ size_of heard.now }
{
    match heard {
        Heard::Need | Heard::NoMemory | Heard::Broken(_) => 0,
        Heard::Got { used, .. } => *used,
    }
}

// The page that is meant to answer a request. The desk is asked if the request is whole and asks it something.
fn meant_page<A: DeskAccess, C: Clock>(access: &mut A, clock: &C, heard: Heard) -> Page
    requires request { heard ≢ Heard.Need }
    requires well_formed { AsksWellFormed heard }
    ensures meant { IsMeant A.may_follow (C.may_give clock.now) A.limit heard (A.state access.old) (A.state access.new) result }
    ensures keeps { A.keeps access.old access.new }
{
    A::access_laws();
    match heard {
        Heard::Need | Heard::NoMemory => OUT_OF_MEMORY,
        Heard::Broken(status) => Page::Status(status, None),
        Heard::Got {
            asked: Asked::Bad(status, allow),
            ..
        } => Page::Status(status, allow),
        Heard::Got {
            asked: Asked::Ask(ask),
            ..
        } => reply_page(access, clock, &ask),
    }
}

// Asks the desk, and is the page that is meant by its answer.
fn reply_page<A: DeskAccess, C: Clock>(access: &mut A, clock: &C, ask: &Ask) -> Page
    requires well_formed { IsWellFormedAsk ask.now }
    ensures meant { MeansReply A.may_follow (C.may_give clock.now) A.limit ask.now (A.state access.old) (A.state access.new) result }
    ensures keeps { A.keeps access.old access.new }
{
    page_of_answer(access.ask(clock.now(), ask))
}

// The page that is meant by an answer of the desk.
fn page_of_answer(answer: Answer) -> Page
    ensures meant { result ≡ meant_by answer }
{
    match answer {
        Answer::Done(reply) => Page::Reply(reply),
        Answer::DiskFault => DISK_FAULT,
        Answer::NoMemory => OUT_OF_MEMORY,
    }
}
