//! A page, put to a connection.

ghost use Rattle.std.specs.Prelude.{◌≡◌, ◌≢◌, MatchOption, OnOk};
ghost use Rattle.farm_base.specs.Counts.{Counts};
ghost use Rattle.farm_http.specs.PageTexts.{IsAnswer};
ghost use Rattle.farm_ports.specs.Ports.{PutsAll};
ghost use Rattle.http_pages.specs.Pages.{page_text};
ghost use Rattle.desk_posts.specs.Calls.{Shows};
ghost use Rattle.desk_posts.specs.Exchanges.{disk_fault, out_of_memory};

use farm_base::NoMemory;
use farm_http::Page;
use farm_ports::{Failed, Sink, put_all};
use http_pages::{
    INSUFFICIENT_STORAGE, INSUFFICIENT_STORAGE_LAST, SERVICE_UNAVAILABLE, SERVICE_UNAVAILABLE_LAST,
    constant_pages, page,
};
use std::alloc::Global;

/// The answer if there is no memory for the one that is meant.
pub(crate) const OUT_OF_MEMORY: Page = Page::Status(507, None);

/// The answer if the disk failed.
pub(crate) const DISK_FAULT: Page = Page::Status(503, None);

/// Puts the page of an answer, made in `out`, or that of 507 if there is no memory to make it.
///
/// The pages of 503 and 507 take no memory.
pub(crate) fn put_page<K: Sink>(
    alloc: Global,
    answer: &Page,
    last: bool,
    out: &mut Vec<u8>,
    sink: &mut K,
) -> Result<(), Failed>
    requires answer { IsAnswer answer.now }
    ensures shows { Shows answer.now last (K.held sink.old) (K.held sink.new) result }
    ensures stream { K.stream sink.new ≡ K.stream sink.old }
    ensures counts { Counts (K.faults sink.old) (K.faults sink.new) result }
{
    match constant_page(answer, last) {
        Some(text) => put_all(sink, text),
        None => put_made(alloc, answer, last, out, sink),
    }
}

// Puts the page of an answer that is no fault of the disk, made in `out`.
fn put_made<K: Sink>(
    alloc: Global,
    answer: &Page,
    last: bool,
    out: &mut Vec<u8>,
    sink: &mut K,
) -> Result<(), Failed>
    requires answer { IsAnswer answer.now }
    requires no_fault { answer.now ≢ disk_fault }
    ensures shows { Shows answer.now last (K.held sink.old) (K.held sink.new) result }
    ensures stream { K.stream sink.new ≡ K.stream sink.old }
    ensures counts { Counts (K.faults sink.old) (K.faults sink.new) result }
{
    out.clear();
    match page(alloc, answer, last, out) {
        Ok(()) => put_all(sink, out),
        Err(NoMemory) => put_all(sink, out_of_memory_page(last)),
    }
}

// The page of 503 or 507, if that is the answer.
fn constant_page(answer: &Page, last: bool) -> Option<&'static [u8]>
    ensures page { MatchOption result (answer.now ≢ disk_fault) (λ text. text.now ≡ page_text answer.now last) }
{
    match answer {
        Page::Status(503, None) => Some(disk_fault_page(last)),
        Page::Status(507, None) => Some(out_of_memory_page(last)),
        _ => None,
    }
}

// The page of 503.
fn disk_fault_page(last: bool) -> &'static [u8]
    ensures page { result.now ≡ page_text disk_fault last }
{
    constant_pages();
    if last {
        SERVICE_UNAVAILABLE_LAST
    } else {
        SERVICE_UNAVAILABLE
    }
}

// The page of 507.
fn out_of_memory_page(last: bool) -> &'static [u8]
    ensures page { result.now ≡ page_text out_of_memory last }
{
    constant_pages();
    if last {
        INSUFFICIENT_STORAGE_LAST
    } else {
        INSUFFICIENT_STORAGE
    }
}
