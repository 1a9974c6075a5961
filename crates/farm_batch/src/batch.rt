//! The lines of a batch, one after another.

ghost use Rattle.std.specs.Prelude.{◌≡◌, ◌≢◌, ◌≤◌, ◌⊎◌, ℕ, List, [], Ok, Some, option_map, IfOk, IsFalse, IsTrue, OnErr, OnOk};
ghost use Rattle.farm_base.specs.Counts.{Counts, CountsIf, count_of};
ghost use Rattle.farm_http.specs.PageTexts.{IsAnswer};
ghost use Rattle.farm_batch.specs.LineAnswers.{answer_text, disk_fault};
ghost use Rattle.farm_batch.specs.Desks.{KeepsDesk};
ghost use Rattle.batch_lines.specs.Reader.{HoldsLine, LooksOn, Reads, kept};
ghost use Rattle.farm_batch.specs.Batches.{AnswersOneLine, Batch, PutsPage, PutsRest};
ghost use Rattle.farm_batch.specs.Puts.{PutsOn};

use crate::answers::answer;
use crate::limits::MOST_LINES;
use crate::waiting::Waiting;
use batch_lines::{Cut, LINE_FEED, LineReader};
use farm_base::NoMemory;
use farm_desk::Desk;
use farm_disk::Disk;
use farm_http::{Page, body};
use farm_ports::{Clock, Failed, Sink, Source};
use std::alloc::Global;

// The answer of a line for which there is no memory, with its line feed.
const OUT_OF_MEMORY: &[u8] = b"{\"error\":507}\n";
// The answer of a line in which the disk failed, with its line feed.
const DISK_FAULT: &[u8] = b"{\"error\":503}\n";

/// How a batch ended.
#[derive(Clone, Copy, Debug, PartialEq, Eq)]
pub enum BatchEnd {
    /// Every line was asked, or a Stop was accepted and answered.
    Done,
    /// The line of this number is one too many, or holds a byte too many.
    Long(u64),
    /// The source or the sink failed.
    Failed,
}

/// Asks a desk the lines of a source, as caller 0, and puts the answer of each, a JSON object and a line feed. Before more is taken of
/// the source every answer is put, up to 65,536 bytes at once: those of all lines that were taken together.
///
/// A line of more than 65,536 bytes is answered by 413 and one that is no request by 400, neither of them asked; 503 replaces an
/// answer that a fault of the disk prevented, and 507 for one that memory ran out for. The batch ends with the source, after
/// a Stop that was entered and answered, at line 1,000,001 or the line of byte 1,073,741,825, and if a port fails; a fault of the disk
/// doesn't end it. `NoMemory` comes before the first byte is taken.
pub fn answer_lines<D: Disk, const LIMIT: usize, S: Source, K: Sink, C: Clock>(
    alloc: Global,
    desk: &mut Desk<D, LIMIT>,
    input: &mut S,
    output: &mut K,
    clock: &C,
) -> Result<BatchEnd, NoMemory>
    ensures batch { IfOk result (λ end. Batch D.faults (C.may_give clock.now) LIMIT desk.old desk.new
        (S.stream input.old) (S.stream input.new) (count_of S.faults input.old input.new)
        (K.held output.old) (K.held output.new) (count_of K.faults output.old output.new) end) }
    ensures keeps { KeepsDesk D.trace D.moment D.faults LIMIT desk.old desk.new }
    ensures desk_kept { OnErr result (desk.new ≡ desk.old) }
    ensures input_kept { OnErr result (input.new ≡ input.old) }
    ensures output_kept { OnErr result (output.new ≡ output.old) }
    ensures input_never_falls { S.faults input.old ≤ S.faults input.new }
    ensures output_never_falls { K.faults output.old ≤ K.faults output.new }
{
    let mut reader = LineReader::new(alloc)?;
    let mut waiting = Waiting::new(alloc)?;
    let mut text = Vec::new(alloc);
    for number in 1..=MOST_LINES {
        let end = match next_line(&mut reader, &mut waiting, input, output) {
            Ok(Cut::Line) => answer_line(
                alloc,
                desk,
                reader.line(),
                &mut waiting,
                output,
                clock,
                &mut text,
            ),
            Ok(Cut::Last) => answer_line(
                alloc,
                desk,
                reader.line(),
                &mut waiting,
                output,
                clock,
                &mut text,
            )
            .or(Some(BatchEnd::Done)),
            Ok(Cut::End) => Some(BatchEnd::Done),
            Ok(Cut::Long) => Some(BatchEnd::Long(number)),
            Ok(Cut::Failed) => Some(BatchEnd::Failed),
            Err(_) => Some(BatchEnd::Failed),
        };
        if let Some(end) = end {
            return Ok(put_rest(&mut waiting, output, end));
        }
    }
    if let Err(Failed) = waiting.put(output) {
        return Ok(BatchEnd::Failed);
    }
    Ok(match look_on(&mut reader, &waiting, input) {
        Ok(false) => BatchEnd::Done,
        Ok(true) => BatchEnd::Long(MOST_LINES + 1),
        Err(Failed) => BatchEnd::Failed,
    })
}

// Reads the next line. If it isn't in hand whole, what waits is put before more is taken.
fn next_line<S: Source, K: Sink>(
    reader: &mut LineReader,
    waiting: &mut Waiting,
    input: &mut S,
    output: &mut K,
) -> Result<Cut, Failed>
    ensures reads { IfOk result (λ cut. Reads reader.old reader.new (S.stream input.old) (S.stream input.new)
        (count_of S.faults input.old input.new) cut) }
    ensures puts { PutsOn (K.held output.old) (K.held output.new) waiting.old waiting.new result }
    ensures put_before { (waiting.new ≡ []) ⊎ (input.new ≡ input.old) }
    ensures not_read { OnErr result (input.new ≡ input.old) }
    ensures source_counts { CountsIf (result ≡ Ok Cut.Failed) (S.faults input.old) (S.faults input.new) }
    ensures sink_counts { Counts (K.faults output.old) (K.faults output.new) result }
{
    if !reader.holds_line() {
        waiting.put(output)?;
    }
    Ok(read_line(reader, waiting, input))
}

// Reads a line. Every answer was put, or no more is taken.
fn read_line<S: Source>(reader: &mut LineReader, _waiting: &Waiting, input: &mut S) -> Cut
    requires put_before { HoldsLine reader.old ⊎ (_waiting.now ≡ []) }
    ensures reads { Reads reader.old reader.new (S.stream input.old) (S.stream input.new) (count_of S.faults input.old input.new) result }
    ensures in_hand { HoldsLine reader.old → input.new ≡ input.old }
    ensures counts { CountsIf (result ≡ Cut.Failed) (S.faults input.old) (S.faults input.new) }
{
    reader.read(input)
}

// Looks whether the source has a byte more. Every answer was put.
fn look_on<S: Source>(
    reader: &mut LineReader,
    _waiting: &Waiting,
    input: &mut S,
) -> Result<bool, Failed>
    requires put_before { _waiting.now ≡ [] }
    ensures looks { LooksOn reader.old (S.stream input.old) (S.stream input.new) (count_of S.faults input.old input.new) result }
    ensures counts { Counts (S.faults input.old) (S.faults input.new) result }
{
    reader.has_more(input)
}

// Answers one line, `None` if it is too long, and says how the batch ends with it, or `None` if it continues.
fn answer_line<D: Disk, const LIMIT: usize, K: Sink, C: Clock>(
    alloc: Global,
    desk: &mut Desk<D, LIMIT>,
    line: Option<&[u8]>,
    waiting: &mut Waiting,
    output: &mut K,
    clock: &C,
    text: &mut Vec<u8>,
) -> Option<BatchEnd>
    ensures answers { (bytes : List ℕ) → option_map (λ line. line.now) line.entry ≡ kept bytes →
        AnswersOneLine D.faults (C.may_give clock.now) LIMIT desk.old desk.new bytes (K.held output.old) (K.held output.new)
        waiting.old waiting.new (count_of K.faults output.old output.new) result }
    ensures keeps { KeepsDesk D.trace D.moment D.faults LIMIT desk.old desk.new }
    ensures counts { CountsIf (result ≡ Some BatchEnd.Failed) (K.faults output.old) (K.faults output.new) }
{
    let meant = answer(alloc, desk, line, clock.now());
    match put_page(&meant.page, waiting, output, text) {
        Ok(whole) if whole && meant.stops => Some(BatchEnd::Done),
        Ok(_) => None,
        Err(Failed) => Some(BatchEnd::Failed),
    }
}

// Puts the answers that wait at the end of a batch, and says how it ends.
fn put_rest<K: Sink>(waiting: &mut Waiting, output: &mut K, end: BatchEnd) -> BatchEnd
    ensures puts { PutsRest (K.held output.old) (K.held output.new) waiting.old (count_of K.faults output.old output.new) end result }
    ensures never_falls { K.faults output.old ≤ K.faults output.new }
{
    match waiting.put(output) {
        Ok(()) => end,
        Err(Failed) => BatchEnd::Failed,
    }
}

// Lets an answer and a line feed, made in `text`, wait to be put, and says whether it is that answer: without memory for it, out of
// memory takes its place. A fault of the disk takes no memory, so that out of memory never hides one.
fn put_page<K: Sink>(
    page: &Page,
    waiting: &mut Waiting,
    output: &mut K,
    text: &mut Vec<u8>,
) -> Result<bool, Failed>
    requires page { IsAnswer page.now }
    ensures puts { PutsPage page.now (K.held output.old) (K.held output.new) waiting.old waiting.new result }
    ensures counts { Counts (K.faults output.old) (K.faults output.new) result }
{
    if is_disk_fault(page) {
        waiting.add(DISK_FAULT, output)?;
        return Ok(true);
    }
    match write_page(page, text) {
        Ok(()) => {
            waiting.add(text, output)?;
            Ok(true)
        }
        Err(NoMemory) => {
            waiting.add(OUT_OF_MEMORY, output)?;
            Ok(false)
        }
    }
}

// Whether an answer says that the disk failed.
fn is_disk_fault(page: &Page) -> bool
    ensures fault { IsTrue result → page.now ≡ disk_fault }
    ensures other { IsFalse result → page.now ≢ disk_fault }
{
    matches!(page, Page::Status(503, None))
}

// Writes an answer and a line feed in place of what a buffer has.
fn write_page(page: &Page, text: &mut Vec<u8>) -> Result<(), NoMemory>
    requires page { IsAnswer page.now }
    ensures text { OnOk result (text.new.items ≡ answer_text page.now) }
{
    text.clear();
    body(page, text)?;
    text.push(LINE_FEED)?;
    Ok(())
}
