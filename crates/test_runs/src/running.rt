//! Runs over ports and a disk in memory.

use command_line::asks_to_serve;
use farm_base::NoMemory;
use farm_disk::MemDisk;
use farm_ports::{Files, Fixed, Gather, Script};
use farm_run::{Done, run_alone};
use std::alloc::{AllocError, Global};
use std::test::Fail;
use test_checks::Checks;

/// What a run ends with: its status, and the bytes that it put.
pub type Answer = (u8, Vec<u8>);

// The words that make a journal, and those of a batch on it.
const INIT: &[&str] = &["init", "--site", "row", "--journal", "j"];

const BATCH: &[&str] = &["batch", "--journal", "j"];

// The moment of the clock of the runs.
const MOMENT: i64 = 1_700_000_000;

/// What the words are answered with, over an input, a folder and an empty disk, no call on which fails.
pub(crate) fn answer(
    alloc: Global,
    words: &[&str],
    input: &str,
    folder: Files,
) -> Result<Answer, Fail> {
    let (answer, disk) = answer_over(alloc, words, input, folder)?;
    drop(disk);
    Ok(answer)
}

// The same, and the disk that is left.
fn answer_over(
    alloc: Global,
    words: &[&str],
    input: &str,
    mut folder: Files,
) -> Result<(Answer, MemDisk), Fail> {
    let answer = answer_to(alloc, words, input, &mut folder);
    drop(folder);
    answer
}

// The same over a folder that is lent.
fn answer_to(
    alloc: Global,
    words: &[&str],
    input: &str,
    folder: &mut Files,
) -> Result<(Answer, MemDisk), Fail> {
    let mut source = source_of(alloc, &[input.as_bytes()], Vec::new(alloc))?;
    let answer = answer_on_empty(alloc, words, &mut source, folder);
    drop(source);
    answer
}

// What the words are answered with, over a source, a folder and an empty disk, and the disk that is left.
fn answer_on_empty(
    alloc: Global,
    words: &[&str],
    source: &mut Script,
    folder: &mut Files,
) -> Result<(Answer, MemDisk), Fail> {
    answer_on(alloc, words, source, folder, empty_disk(alloc)?)
}

// Appends copies of pieces to a list.
fn add_copies(copies: &mut Vec<Vec<u8>>, alloc: Global, pieces: &[&[u8]]) -> Result<(), NoMemory> {
    for piece in pieces {
        copies.push(piece.to_vec(alloc)?)?;
    }
    Ok(())
}

/// A source of these pieces, whose takes of these numbers fail.
pub(crate) fn source_of(
    alloc: Global,
    pieces: &[&[u8]],
    fails: Vec<u64>,
) -> Result<Script, NoMemory> {
    let mut copies = Vec::new(alloc);
    if let Err(fault) = add_copies(&mut copies, alloc, pieces) {
        drop((copies, fails));
        return Err(fault);
    }
    Script::new(alloc, copies, fails)
}

/// A folder without a file.
pub(crate) fn no_folder(alloc: Global) -> Result<Files, NoMemory> {
    Files::new(alloc, Vec::new(alloc), Vec::new(alloc))
}

/// A disk without a byte.
pub(crate) fn empty_disk(alloc: Global) -> Result<MemDisk, Fail> {
    Ok(MemDisk::new(alloc, Vec::new(alloc), Vec::new(alloc))?)
}

// Appends words to a list as a run takes them.
fn add_words(owned: &mut Vec<String>, alloc: Global, words: &[&str]) -> Result<(), NoMemory> {
    for word in words {
        owned.push(String::from_str(alloc, word)?)?;
    }
    Ok(())
}

/// Words as a run takes them.
pub(crate) fn words_of(alloc: Global, words: &[&str]) -> Result<Vec<String>, Fail> {
    let mut owned = Vec::new(alloc);
    if let Err(fault) = add_words(&mut owned, alloc, words) {
        drop(owned);
        return Err(fault.into());
    }
    Ok(owned)
}

// Words as a run takes them, and an output without a byte.
fn words_and_sink(alloc: Global, words: &[&str]) -> Result<(Vec<String>, Gather), Fail> {
    let owned = words_of(alloc, words)?;
    match Gather::new(alloc, Vec::new(alloc)) {
        Ok(sink) => Ok((owned, sink)),
        Err(fault) => {
            drop(owned);
            Err(fault.into())
        }
    }
}

// What the words are answered with, over a source, a folder and a disk, and the disk that is left.
fn answer_on(
    alloc: Global,
    words: &[&str],
    source: &mut Script,
    folder: &mut Files,
    disk: MemDisk,
) -> Result<(Answer, MemDisk), Fail> {
    match words_and_sink(alloc, words) {
        Ok((owned, mut sink)) => {
            let left = left_on(alloc, &owned, source, &mut sink, folder, disk);
            let bytes = Vec::from_slice(alloc, sink.bytes());
            drop((owned, sink));
            answered(left, bytes)
        }
        Err(fail) => {
            drop(disk);
            Err(fail)
        }
    }
}

// The status of the run of these words, which don't ask to serve, and the disk that is left.
fn left_on(
    alloc: Global,
    words: &[String],
    source: &mut Script,
    sink: &mut Gather,
    folder: &mut Files,
    disk: MemDisk,
) -> Result<(u8, MemDisk), Fail> {
    if asks_to_serve(words) {
        drop(disk);
        return Err("words that ask to serve")?;
    }
    match Fixed::new(alloc, MOMENT) {
        Ok(clock) => left_of(run_alone(alloc, words, source, sink, folder, disk, &clock)),
        Err(fault) => {
            drop(disk);
            Err(fault.into())
        }
    }
}

// The status of a run that ended, and the disk that is left.
fn left_of(done: Done<MemDisk>) -> Result<(u8, MemDisk), Fail> {
    Ok((done.status, done.disk.ok_or("no disk")?))
}

// The status of a run with the bytes that it put, and the disk that is left.
fn answered(
    left: Result<(u8, MemDisk), Fail>,
    bytes: Result<Vec<u8>, AllocError>,
) -> Result<(Answer, MemDisk), Fail> {
    let (status, disk) = left?;
    match bytes {
        Ok(bytes) => Ok(((status, bytes), disk)),
        Err(fault) => {
            drop(disk);
            Err(fault.into())
        }
    }
}

// A disk with the journal of the row site, without an entry.
fn row_journal(alloc: Global) -> Result<MemDisk, Fail> {
    let (answer, disk) = answer_over(alloc, INIT, "", sample_site::row_folder(alloc)?)?;
    let status = answer.0;
    drop(answer);
    if status == 0 {
        Ok(disk)
    } else {
        drop(disk);
        Err("no journal")?
    }
}

/// What a batch on a new journal of the row site answers to a source of lines.
pub(crate) fn batch_answer(alloc: Global, lines: &mut Script) -> Result<Answer, Fail> {
    let mut folder = no_folder(alloc)?;
    let answer = batch_over(alloc, lines, &mut folder);
    drop(folder);
    answer
}

// The same over a folder that is lent.
fn batch_over(alloc: Global, lines: &mut Script, folder: &mut Files) -> Result<Answer, Fail> {
    let (answer, disk) = answer_on(alloc, BATCH, lines, folder, row_journal(alloc)?)?;
    drop(disk);
    Ok(answer)
}

/// An answer has this status and this text.
pub(crate) fn check_answer<R: Print>(
    checks: &mut Checks<'_, R>,
    case: &str,
    answer: Answer,
    status: u8,
    text: &str,
) {
    let (came, bytes) = answer;
    checks.same_at(case, came, status);
    checks.same_at(case, bytes.as_slice(), text.as_bytes());
    drop(bytes);
}
