//! `table` on the row site.

use crate::running::{Answer, answer, check_answer};
use farm_ports::Files;
use std::alloc::{AllocError, Global};
use std::test::Fail;
use test_checks::Checks;

const ROUNDING: &str =
    "name = \"Rowsite\"\nrounding = [\"3 half\", \"5 half\", \"1 half\", \"1 half\", \"1 half\", \"1 half\", \"1 half\", \"1 half\", \"1 half\", \"1 half\", \"1 half\", \"1 half\"]";

// What `table` answers over a folder.
fn table_answer(alloc: Global, folder: Files) -> Result<Answer, Fail> {
    answer(alloc, &["table", "--site", "row"], "", folder)
}

// Replaces a text in the file of a name, where it stands first.
fn replace_in(
    files: &mut [(String, Vec<u8>)],
    alloc: Global,
    [name, old, new]: [&str; 3],
) -> Result<(), Fail> {
    for (own, bytes) in files {
        if own.as_str() == name {
            *bytes = replaced(alloc, bytes, old, new)?;
        }
    }
    Ok(())
}

// The folder of the row site, with a text in one of its files replaced where it stands first.
fn edited(alloc: Global, words: [&str; 3]) -> Result<Files, Fail> {
    let mut files = sample_site::row_files(alloc)?;
    if let Err(fail) = replace_in(&mut files, alloc, words) {
        drop(files);
        return Err(fail);
    }
    Ok(Files::new(alloc, files, Vec::new(alloc))?)
}

// The bytes of a text with one replaced by another, where it first stands.
fn replaced(alloc: Global, bytes: &[u8], old: &str, new: &str) -> Result<Vec<u8>, Fail> {
    let text = std::str::from_utf8(bytes).ok().ok_or("no text")?;
    Ok(text.replacen(alloc, old, new, 1)?.into_bytes())
}

// Appends a line, which is dropped after it.
fn push_line(out: &mut String, line: String) -> Result<(), AllocError> {
    let pushed = out.push_str(line.as_str());
    drop(line);
    pushed
}

// The issued table of a tank of the row site: a row each 10 mm from 0 to 15,000 mm, of 10,000 litres each.
fn write_table(out: &mut String, alloc: Global, tank: u16) -> Result<(), AllocError> {
    push_line(out, format!(in alloc; "tank {tank}\n")?)?;
    for row in 0..=1_500_u32 {
        push_line(out, format!(in alloc; "{} {}\n", 10 * row, 10_000 * row)?)?;
    }
    Ok(())
}

// The issued tables of the tanks of the row site.
fn write_tables(out: &mut String, alloc: Global) -> Result<(), AllocError> {
    for tank in 101..=106 {
        write_table(out, alloc, tank)?;
    }
    Ok(())
}

// The same as a text.
fn issued(alloc: Global) -> Result<String, AllocError> {
    let mut tables = String::new(alloc);
    if let Err(fault) = write_tables(&mut tables, alloc) {
        drop(tables);
        return Err(fault);
    }
    Ok(tables)
}

// `table` on the row site puts these tables.
fn check_tables<R: Print>(
    checks: &mut Checks<'_, R>,
    alloc: Global,
    want: &str,
) -> Result<(), Fail> {
    let (status, bytes) = table_answer(alloc, sample_site::row_folder(alloc)?)?;
    checks.same_at("the status", status, 0);
    checks.same_at("the tables", bytes.as_slice() == want.as_bytes(), true);
    drop(bytes);
    Ok(())
}

#[test]
fn each_tank_has_its_table_issued(rt: HostRuntime) -> Result<(), Fail> {
    let mut checks = Checks::new(&rt);
    let want = issued(rt.alloc())?;
    let tables = check_tables(&mut checks, rt.alloc(), want.as_str());
    drop(want);
    tables?;
    Ok(checks.end()?)
}

// A file of the row site, a text in it and the one that replaces it, and what `table` answers then.
const EDITS: &[(&str, [&str; 3], (u8, &str))] = &[
    (
        "a product that is missing",
        [
            "site.toml",
            "number = 102\nproduct = 1",
            "number = 102\nproduct = 9",
        ],
        (2, "site refused: code 5 item 2 detail 0\n"),
    ),
    (
        "a factor that is missing",
        ["factors.csv", "860.0,25.00,0.99160\n", ""],
        (2, "site refused: code 8 item 1 detail 9\n"),
    ),
    (
        "a coefficient with a point",
        ["site.toml", "coefficient = 112", "coefficient = 112.0"],
        (2, "site refused: code 2 item 1 detail 0\n"),
    ),
    (
        "another rounding",
        ["site.toml", "name = \"Rowsite\"", ROUNDING],
        (2, "site refused: code 3 item 0 detail 0\n"),
    ),
    (
        "a file that is missing",
        ["site.toml", "\"factors.csv\"", "\"no.csv\""],
        (6, "port fault\n"),
    ),
];

#[test]
fn site_refusals(rt: HostRuntime) -> Result<(), Fail> {
    let mut checks = Checks::new(&rt);
    for (name, edit, (status, text)) in EDITS {
        let answer = table_answer(rt.alloc(), edited(rt.alloc(), *edit)?)?;
        check_answer(&mut checks, name, answer, *status, text);
    }
    Ok(checks.end()?)
}
