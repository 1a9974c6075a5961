//! Lines out of a source, one after another.

ghost use Rattle.std.specs.Prelude.{◌≡◌, ◌≢◌, ◌↔◌, ◌+◌, ◌≤◌, ℕ, List, [], length, take, drop, option_map, IfOk, IsTrue, OnErr, OnOk, Ok};
ghost use Rattle.farm_base.specs.Counts.{Counts, CountsIf, count_of};
ghost use Rattle.farm_base.specs.Known.{Takes};
ghost use Rattle.batch_lines.specs.declared.limits.TheConstants.{MOST_BYTES};
ghost use Rattle.batch_lines.specs.Reader.{AtEnd, Extends, Holds, HoldsLine, LooksOn, Moves, Reads, StopsWithin, TakesOn};

use crate::limits::{LINE_FEED, MOST_BYTES, MOST_REQUEST_LINE_BYTES};
use farm_base::NoMemory;
use farm_ports::{Failed, Source};
use memchr::memchr;
use std::alloc::Global;
use std::marker::Model;

// How many bytes are asked for in one take.
const PIECE: usize = 8_192;

/// What reading a line found.
#[derive(Clone, Copy, Debug, PartialEq, Eq)]
pub enum Cut {
    /// A line, and the line feed after it.
    Line,
    /// The last line, which no line feed ends.
    Last,
    /// Nothing: the source ended.
    End,
    /// A line that holds a byte too many.
    Long,
    /// The source failed.
    Failed,
}

/// What a cut into the bytes in hand found.
#[derive(Clone, Copy, Debug, PartialEq, Eq)]
pub(crate) enum Moved {
    /// The end of a line.
    Ended,
    /// No line feed.
    All,
    /// A byte too many.
    Long,
}

/// A reader of lines. It keeps one line, of at most 65,536 bytes, and the piece that it took last.
#[derive(Drop)]
pub struct LineReader {
    piece: Vec<u8>,
    start: usize,
    end: usize,
    line: Vec<u8>,
    length: usize,
    passed: usize,
}

impl Model for LineReader {
    ghost use Rattle.std.specs.Prelude.{◌≡◌, ◌-◌, ◌≤◌, take, drop, nat_lt, if◌then◌else◌, None, Some, vec_len};
    ghost use Rattle.batch_lines.specs.Reader.{ReaderState};
    ghost use Rattle.batch_lines.specs.declared.limits.TheConstants.{MOST_REQUEST_LINE_BYTES, MOST_BYTES};

    ghost Value = { ReaderState };

    ghost view = { λ reader. record {
      in_hand = take (reader.end - reader.start) (drop reader.start reader.piece.items);
      line = if nat_lt MOST_REQUEST_LINE_BYTES reader.length then None else Some (take reader.length reader.line.items);
      length = reader.length;
      passed = reader.passed;
    } };

    ghost invariant = { λ reader. (reader.start ≤ reader.end) × (reader.end ≤ vec_len reader.piece) × (vec_len reader.piece ≡ 8192)
        × (vec_len reader.line ≡ MOST_REQUEST_LINE_BYTES) × (reader.length ≤ reader.passed) × (reader.passed ≤ MOST_BYTES) };
}

impl LineReader {
    /// A reader that has read nothing.
    pub fn new(alloc: Global) -> Result<Self, NoMemory>
        ensures in_hand { IfOk result (λ reader. reader.in_hand ≡ []) }
        ensures passed { IfOk result (λ reader. reader.passed ≡ 0) }
    {
        Ok(LineReader {
            piece: vec![in alloc; 0; PIECE]?,
            start: 0,
            end: 0,
            line: vec![in alloc; 0; MOST_REQUEST_LINE_BYTES]?,
            length: 0,
            passed: 0,
        })
    }

    /// The line that was read last, without its line feed; `None` where it is too long.
    pub fn line(&self) -> Option<&[u8]>
        ensures line { option_map (λ line. line.now) result ≡ self.now.line }
    {
        self.line.get(..self.length)
    }

    /// Whether the next line is in hand whole, so that it is read without a take.
    pub fn holds_line(&self) -> bool
        ensures held { IsTrue result ↔ HoldsLine self.now }
    {
        match memchr(LINE_FEED, &self.piece[self.start..self.end]) {
            Some(count) => count < MOST_BYTES - self.passed,
            None => false,
        }
    }

    /// Reads a line. Of one in hand whole the source isn't asked.
    pub fn read<S: Source>(&mut self, input: &mut S) -> Cut
        ensures reads { Reads self.old self.new (S.stream input.old) (S.stream input.new) (count_of S.faults input.old input.new) result }
        ensures in_hand { HoldsLine self.old → (result ≡ Cut.Line) × (input.new ≡ input.old) }
        ensures counts { CountsIf (result ≡ Cut.Failed) (S.faults input.old) (S.faults input.new) }

        // After a byte too many, or a fault of the source, the line stays begun; after a fault nothing is in hand.
        ensures long { result ≡ Cut.Long → StopsWithin self.old self.new (S.stream input.old) (S.stream input.new) }
        ensures failed { result ≡ Cut.Failed → StopsWithin self.old self.new (S.stream input.old) (S.stream input.new) }
        ensures empty { result ≡ Cut.Failed → self.new.in_hand ≡ [] }
    {
        self.length = 0;
        let mut moved = self.cut();
        while moved == Moved::All {
            match self.refill(input) {
                Ok(0) => return if self.length == 0 {
                    Cut::End
                } else {
                    Cut::Last
                },
                Ok(_) => moved = self.cut(),
                Err(Failed) => return Cut::Failed,
            }
        }
        if moved == Moved::Ended {
            Cut::Line
        } else {
            Cut::Long
        }
    }

    /// Whether the source has a byte more.
    pub fn has_more<S: Source>(&mut self, input: &mut S) -> Result<bool, Failed>
        ensures looks { LooksOn self.old (S.stream input.old) (S.stream input.new) (count_of S.faults input.old input.new) result }
        ensures keeps { OnOk result (TakesOn self.old self.new (S.stream input.old) (S.stream input.new)) }
        ensures as_before { OnErr result (self.new ≡ self.old) }
        ensures counts { Counts (S.faults input.old) (S.faults input.new) result }
    {
        if self.start < self.end {
            return Ok(true);
        }
        Ok(self.refill(input)? > 0)
    }

    // Takes a piece, where nothing is in hand, and says how many bytes it has; 0 is the end.
    fn refill<S: Source>(&mut self, input: &mut S) -> Result<usize, Failed>
        requires nothing { self.old.in_hand ≡ [] }
        ensures taken { IfOk result (λ _. Takes (S.stream input.old) (S.stream input.new) self.new.in_hand) }
        ensures count { IfOk result (λ count. count ≡ length self.new.in_hand) }
        ensures at_end { result ≡ Ok 0 → AtEnd (S.stream input.new) }
        ensures failed { OnErr result (Takes (S.stream input.old) (S.stream input.new) []) }
        ensures as_before { OnErr result (self.new ≡ self.old) }
        ensures line { self.new.line ≡ self.old.line }
        ensures held { (line : List ℕ) → Holds self.old line → Holds self.new line }
        ensures passed { self.new.passed ≡ self.old.passed }
        ensures counts { Counts (S.faults input.old) (S.faults input.new) result }
    {
        let count = input.take(&mut self.piece)?;
        self.start = 0;
        self.end = count;
        Ok(count)
    }

    // Cuts off what is in hand up to the first line feed, or all of it.
    fn cut(&mut self) -> Moved
        ensures moves { Moves self.old self.new result }
    {
        let room = MOST_BYTES - self.passed;
        let in_hand = self.end - self.start;
        match memchr(LINE_FEED, &self.piece[self.start..self.end]) {
            Some(count) if count < room => {
                self.keep(count);
                self.pass_line_feed();
                Moved::Ended
            }
            None if in_hand <= room => {
                self.keep(in_hand);
                Moved::All
            }
            _ => Moved::Long,
        }
    }

    // Cuts bytes off, and keeps them in the line as far as a line may have.
    fn keep(&mut self, count: usize)
        requires in_hand { count ≤ length self.old.in_hand }
        requires room { self.old.passed + count ≤ MOST_BYTES }
        ensures in_hand { self.new.in_hand ≡ drop count self.old.in_hand }
        ensures extends { Extends self.old self.new (take count self.old.in_hand) }
        ensures passed { self.new.passed ≡ self.old.passed + count }
    {
        let before = self.length;
        self.length += count;
        if self.length <= MOST_REQUEST_LINE_BYTES {
            let kept = &self.piece[self.start..self.start + count];
            self.line[before..self.length].copy_from_slice(kept);
        }
        self.start += count;
        self.passed += count;
    }

    // Cuts one byte off, and keeps it nowhere.
    fn pass_line_feed(&mut self)
        requires in_hand { 1 ≤ length self.old.in_hand }
        requires room { self.old.passed + 1 ≤ MOST_BYTES }
        ensures in_hand { self.new.in_hand ≡ drop 1 self.old.in_hand }
        ensures held { (line : List ℕ) → Holds self.old line → Holds self.new line }
        ensures passed { self.new.passed ≡ self.old.passed + 1 }
    {
        self.start += 1;
        self.passed += 1;
    }
}
