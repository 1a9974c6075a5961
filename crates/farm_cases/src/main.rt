//! Runs the cases of a folder through the program's runs, over ports, listeners and links in memory, and prints how many each file has.
//!
//! A case is a table of a TOML file: a name, the words, the input, the files of the folder, who comes to a listener, what a link answers,
//! the calls that fail, and the expected status and output. A case that differs is printed with what was expected and what came.
//! README.md says how to read and add one.
#![tactic(auto)]

mod row;

use crate::row::has_row_site;
use case_files::{Case, CaseFault, Keys, Listing, read_table, texts_of};
use case_trials::{Stage, Trial, TrialFault};
use farm_ports::{DirFolder, Folder};
use std::alloc::Global;
use std::rt::Env;
use std::sync::Wait;
use std::thread::Threads;
use std::{env, io};
use toml::{Table, Value};

// The file that lists the files of cases and the sites.
const LISTING: &str = "cases.toml";

// The arguments are the folder of the cases and the files to run; without them every file of the folder where the program runs.
fn main(rt: HostRuntime) -> anyhow::Result<()> {
    let words = arguments(&rt)?;
    let folder = words.first().map_or(".", |word| word.as_str());
    let mut data = DirFolder::new(&rt, String::from_str(rt.alloc(), folder)?);
    let table = read_table(rt.alloc(), &mut data, LISTING)?;
    let listing = Listing::of(rt.alloc(), &table)?;
    let stage = Stage {
        rt: &rt,
        alloc: rt.alloc(),
        sites: listing.sites,
    };
    run_words(&stage, &mut data, words.get(1..), listing.files)
}

// Runs the files that the words name, or all listed files if there are no words.
fn run_words<R: Threads + Wait + Print + Sync, F: Folder>(
    stage: &Stage<'_, R>,
    data: &mut F,
    words: Option<&[String]>,
    listed: &[Value],
) -> anyhow::Result<()> {
    match words {
        Some(files) if !files.is_empty() => run_files(stage, data, files)?,
        _ => run_listed(stage, data, listed)?,
    }
    Ok(())
}

// Runs all files that are listed, and compares the site of the worked rows.
fn run_listed<R: Threads + Wait + Print + Sync, F: Folder>(
    stage: &Stage<'_, R>,
    data: &mut F,
    listed: &[Value],
) -> anyhow::Result<()> {
    let files = texts_of(stage.alloc, "files", listed)?;
    run_files(stage, data, &files)?;
    compare_row_site(stage.rt, stage.alloc, data)?;
    Ok(())
}

// The arguments after the program's name.
fn arguments(rt: &(impl Env + AllocGlobal)) -> io::Result<Vec<String>> {
    Ok(env::args(rt)?.skip(1).collect(rt.alloc())?)
}

// Runs files of cases one after another.
fn run_files<R: Threads + Wait + Print + Sync, F: Folder>(
    stage: &Stage<'_, R>,
    data: &mut F,
    names: &[String],
) -> io::Result<()> {
    for name in names {
        run_file(stage, data, name)?;
    }
    Ok(())
}

// Runs the cases of a file one after another, and prints their number.
fn run_file<R: Threads + Wait + Print + Sync, F: Folder>(
    stage: &Stage<'_, R>,
    data: &mut F,
    name: &str,
) -> io::Result<()> {
    match read_table(stage.alloc, data, name) {
        Ok(table) => run_table(stage, data, name, &table),
        Err(fault) => println!(stage.rt; "{name}: {fault}"),
    }
}

// Runs the cases of the table that a file is.
fn run_table<R: Threads + Wait + Print + Sync, F: Folder>(
    stage: &Stage<'_, R>,
    data: &mut F,
    name: &str,
    table: &Table,
) -> io::Result<()> {
    match cases_of(stage.alloc, table) {
        Ok(cases) => run_cases(stage, data, name, cases),
        Err(fault) => println!(stage.rt; "{name}: {fault}"),
    }
}

// The tables `[[case]]` of a file.
fn cases_of(alloc: Global, table: &Table) -> Result<&[Value], CaseFault> {
    Keys::of(alloc, table, &["case"], &[])?.list("case")
}

// Runs the cases of a file, and prints each that differs, and then how many there are.
fn run_cases<R: Threads + Wait + Print + Sync, F: Folder>(
    stage: &Stage<'_, R>,
    data: &mut F,
    name: &str,
    cases: &[Value],
) -> io::Result<()> {
    let mut number: u64 = 0;
    let mut differing: u64 = 0;
    for case in cases {
        number = number.saturating_add(1);
        if !run_case(stage, data, name, number, case)? {
            differing = differing.saturating_add(1);
        }
    }
    if differing == 0 {
        println!(stage.rt; "{name}: {number} cases")
    } else {
        println!(stage.rt; "{name}: {number} cases, {differing} differ")
    }
}

// Runs a case, prints it if it differs or can't be run, and says whether it agrees.
fn run_case<R: Threads + Wait + Print + Sync, F: Folder>(
    stage: &Stage<'_, R>,
    data: &mut F,
    file: &str,
    number: u64,
    value: &Value,
) -> io::Result<bool> {
    match Case::of(stage.alloc, value) {
        Ok(case) => return run_trial(stage, data, file, &case),
        Err(fault) => println!(stage.rt; "{file}: case {number}: {fault}")?,
    }
    Ok(false)
}

// Runs a case that has its form, prints it if it differs or can't be run, and says whether it agrees.
fn run_trial<R: Threads + Wait + Print + Sync, F: Folder>(
    stage: &Stage<'_, R>,
    data: &mut F,
    file: &str,
    case: &Case<'_>,
) -> io::Result<bool> {
    match Trial::of_case(stage, data, case) {
        Ok(trial) => report_trial(stage.rt, file, case.name, &trial),
        Err(fault) => report_fault(stage.rt, file, case.name, &fault),
    }
}

// Prints a case that differs, and says whether it agrees.
fn report_trial(rt: &impl Print, file: &str, name: &str, trial: &Trial) -> io::Result<bool> {
    let agrees = trial.agrees();
    if !agrees {
        println!(rt; "{file}: {name}: {trial}")?;
    }
    Ok(agrees)
}

// Prints a case that can't be run, which doesn't agree.
fn report_fault(rt: &impl Print, file: &str, name: &str, fault: &TrialFault) -> io::Result<bool> {
    println!(rt; "{file}: {name}: {fault}")?;
    Ok(false)
}

// Compares the site `row` with the site of the worked rows, and prints how that went.
fn compare_row_site<F: Folder>(rt: &impl Print, alloc: Global, data: &mut F) -> io::Result<()> {
    match has_row_site(alloc, data) {
        Ok(true) => println!(rt; "row: the files of the worked rows"),
        Ok(false) => println!(rt; "row: not the files of the worked rows"),
        Err(fault) => println!(rt; "row: {fault}"),
    }
}
