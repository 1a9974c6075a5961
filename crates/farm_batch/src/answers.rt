//! The answer to a line: what the desk answers, or why it wasn't asked.

ghost use Rattle.std.specs.Prelude.{◌≡◌, ◌≢◌, ◌≤◌, ℕ, false, List, None, Some, option_map};
ghost use Rattle.farm_base.specs.Counts.{raised};
ghost use Rattle.journaled_book.specs.Histories.{certain};
ghost use Rattle.farm_history.specs.Desk.{IsWellFormedAsk};
ghost use Rattle.farm_history.specs.History.{last_place};
ghost use Rattle.farm_http.specs.PageTexts.{IsAnswer, IsErrorStatus};
ghost use Rattle.farm_batch.specs.LineAnswers.{AsksNothing, IsReply, MeetsLine, answer_to, ends_with, faults_on_page, is_stop_ask, line_answer, page_of};
ghost use Rattle.farm_batch.specs.Desks.{KeepsDesk};
ghost use Rattle.batch_lines.specs.Reader.{kept};

use crate::limits::BATCH_CALLER;
use farm_desk::{Answer, Desk};
use farm_disk::Disk;
use farm_history::Ask;
use farm_http::{LineAsked, Page, line};
use std::alloc::Global;

/// The answer to a line, and whether the batch ends with it.
#[derive(Clone, Copy)]
pub(crate) struct Meant {
    pub page: Page,
    pub stops: bool,
}

/// The answer to a line at a number of the clock; the line is `None` if it is too long.
pub(crate) fn answer<D: Disk, const LIMIT: usize>(
    alloc: Global,
    desk: &mut Desk<D, LIMIT>,
    text: Option<&[u8]>,
    now: i64,
) -> Meant
    ensures meant { (bytes : List ℕ) → option_map (λ text. text.now) text.entry ≡ kept bytes →
        MeetsLine bytes desk.old.history desk.new.history (line_answer LIMIT desk.old.history now bytes) result.page result.stops }
    ensures page { IsAnswer result.page }
    ensures keeps { KeepsDesk D.trace D.moment D.faults LIMIT desk.old desk.new }
    ensures counted { desk.new.failed ≡ raised (faults_on_page result.page) desk.old.failed }
    ensures disk_counted { D.faults desk.new.disk ≡ raised (faults_on_page result.page) (D.faults desk.old.disk) }
    ensures acknowledged { IsReply result.page → last_place desk.new.history ≤ certain desk.new.doubt desk.new.history }
    ensures untouched { (bytes : List ℕ) → option_map (λ text. text.now) text.entry ≡ kept bytes → AsksNothing bytes → desk.new ≡ desk.old }
{
    let Some(bytes) = text else {
        return status(413);
    };
    match line(alloc, bytes) {
        LineAsked::Ask(ask) => answer_ask(desk, now, &ask),
        LineAsked::Bad => status(400),
        LineAsked::NoMemory => status(507),
    }
}

// The answer of a status.
fn status(status: u16) -> Meant
    requires status { IsErrorStatus status }
    requires no_method { status ≢ 405 }
    ensures page { result.page ≡ Page.Status status None }
    ensures goes_on { result.stops ≡ false }
    ensures may_be { IsAnswer result.page }
{
    Meant {
        page: Page::Status(status, None),
        stops: false,
    }
}

// The answer to a request. It ends the batch if it is a Stop that was entered.
fn answer_ask<D: Disk, const LIMIT: usize>(desk: &mut Desk<D, LIMIT>, now: i64, ask: &Ask) -> Meant
    requires well_formed { IsWellFormedAsk ask.now }
    ensures meant { (line : List ℕ) → ¬ (AsksNothing line) →
        MeetsLine line desk.old.history desk.new.history (answer_to LIMIT desk.old.history now (Some ask.now)) result.page result.stops }
    ensures page { IsAnswer result.page }
    ensures keeps { KeepsDesk D.trace D.moment D.faults LIMIT desk.old desk.new }
    ensures counted { desk.new.failed ≡ raised (faults_on_page result.page) desk.old.failed }
    ensures disk_counted { D.faults desk.new.disk ≡ raised (faults_on_page result.page) (D.faults desk.old.disk) }
    ensures acknowledged { IsReply result.page → last_place desk.new.history ≤ certain desk.new.doubt desk.new.history }
{
    let entries = desk.book().entries().len();
    let answer = desk.ask(BATCH_CALLER, now, ask);
    let stops = is_stop(ask) && desk.book().entries().len() > entries;
    meant_by(answer, stops)
}

// The answer to a line that the desk answered so; a reply ends the batch or not.
fn meant_by(answer: Answer, stops: bool) -> Meant
    ensures page { result.page ≡ page_of answer }
    ensures stops { result.stops ≡ ends_with answer stops }
    ensures may_be { IsAnswer result.page }
{
    match answer {
        Answer::Done(reply) => Meant {
            page: Page::Reply(reply),
            stops,
        },
        Answer::DiskFault => status(503),
        Answer::NoMemory => status(507),
    }
}

// Whether a request is a Stop.
fn is_stop(ask: &Ask) -> bool
    ensures stop { result ≡ is_stop_ask ask.now }
{
    match ask {
        Ask::Do { cmd, .. } => cmd.is_stop(),
        Ask::Look(_) => false,
    }
}
