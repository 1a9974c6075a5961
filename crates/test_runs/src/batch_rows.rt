//! Rows of a batch: a request and its answer each.

use crate::running::{batch_answer, source_of};
use std::alloc::Global;
use std::test::Fail;
use test_checks::Checks;

// Appends the lines of rows to a text, each with its line feed.
fn push_rows(rows: &[(&str, &str)], lines: &mut String) -> Result<(), Fail> {
    for (line, _) in rows {
        lines.push_str(line)?;
        lines.push('\n')?;
    }
    Ok(())
}

// The same of each part of rows.
fn push_parts(rows: &[&[(&str, &str)]], lines: &mut String) -> Result<(), Fail> {
    for part in rows {
        push_rows(part, lines)?;
    }
    Ok(())
}

// The lines of rows.
fn lines_of(alloc: Global, rows: &[&[(&str, &str)]]) -> Result<String, Fail> {
    let mut lines = String::new(alloc);
    if let Err(fail) = push_parts(rows, &mut lines) {
        drop(lines);
        return Err(fail);
    }
    Ok(lines)
}

// A text is the answers of rows, a line each. A line that differs is printed with its request.
fn check_lines<R: Print>(checks: &mut Checks<'_, R>, rows: &[&[(&str, &str)]], text: &[u8]) {
    let mut lines = text.split(|byte| *byte == b'\n');
    for part in rows {
        for (request, answer) in *part {
            checks.same_at(*request, lines.next(), Some(answer.as_bytes()));
        }
    }
    checks.same_at("after the last line", lines.next(), Some(b"".as_slice()));
    checks.same_at("lines that follow", lines.next(), None);
}

// A batch on a new journal of the row site answers a text of lines as the rows say.
fn check_rows<R: Print>(
    checks: &mut Checks<'_, R>,
    alloc: Global,
    rows: &[&[(&str, &str)]],
    lines: &str,
) -> Result<(), Fail> {
    let mut source = source_of(alloc, &[lines.as_bytes()], Vec::new(alloc))?;
    let answer = batch_answer(alloc, &mut source);
    drop(source);
    let (status, text) = answer?;
    checks.same_at("the status of a batch", status, 0);
    check_lines(checks, rows, &text);
    drop(text);
    Ok(())
}

/// A batch on a new journal of the row site answers each line of rows as its row says.
pub(crate) fn check_batch<R: Print>(
    checks: &mut Checks<'_, R>,
    alloc: Global,
    rows: &[&[(&str, &str)]],
) -> Result<(), Fail> {
    let lines = lines_of(alloc, rows)?;
    let checked = check_rows(checks, alloc, rows, lines.as_str());
    drop(lines);
    checked
}
