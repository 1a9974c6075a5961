//! The commands that words are, with the values that their options have.

use crate::running::words_of;
use command_line::{CommandName, DrillOptions, ServeOptions, Subcommand};
use std::alloc::Global;
use std::test::Fail;
use test_checks::Checks;

// Words as they are read, and the command that they are; `None` if they are none.
type Words = (&'static str, &'static [&'static str], Option<Subcommand>);

// The numbers of `serve`.
const SERVED: &[Words] = &[
    (
        "no workers",
        &[
            "serve",
            "--journal",
            "j",
            "--port",
            "8080",
            "--workers",
            "0",
            "--rounds",
            "0",
        ],
        None,
    ),
    (
        "nine workers",
        &[
            "serve",
            "--journal",
            "j",
            "--port",
            "8080",
            "--workers",
            "9",
            "--rounds",
            "0",
        ],
        None,
    ),
    (
        "eight workers",
        &[
            "serve",
            "--journal",
            "j",
            "--port",
            "8080",
            "--workers",
            "8",
            "--rounds",
            "0",
        ],
        Some(Subcommand::Serve(ServeOptions {
            port: 8080,
            workers: 8,
            rounds: 0,
        })),
    ),
    (
        "one worker on the greatest port",
        &[
            "serve",
            "--journal",
            "j",
            "--port",
            "65535",
            "--workers",
            "1",
            "--rounds",
            "0",
        ],
        Some(Subcommand::Serve(ServeOptions {
            port: 65_535,
            workers: 1,
            rounds: 0,
        })),
    ),
    (
        "two workers from the greatest port on",
        &[
            "serve",
            "--journal",
            "j",
            "--port",
            "65535",
            "--workers",
            "2",
            "--rounds",
            "0",
        ],
        None,
    ),
    (
        "eight workers up to the greatest port",
        &[
            "serve",
            "--journal",
            "j",
            "--port",
            "65528",
            "--workers",
            "8",
            "--rounds",
            "0",
        ],
        Some(Subcommand::Serve(ServeOptions {
            port: 65_528,
            workers: 8,
            rounds: 0,
        })),
    ),
    (
        "eight workers beyond the greatest port",
        &[
            "serve",
            "--journal",
            "j",
            "--port",
            "65529",
            "--workers",
            "8",
            "--rounds",
            "0",
        ],
        None,
    ),
    (
        "the most rounds",
        &[
            "serve",
            "--journal",
            "j",
            "--port",
            "8080",
            "--workers",
            "1",
            "--rounds",
            "100000000",
        ],
        Some(Subcommand::Serve(ServeOptions {
            port: 8080,
            workers: 1,
            rounds: 100_000_000,
        })),
    ),
    (
        "a round too many",
        &[
            "serve",
            "--journal",
            "j",
            "--port",
            "8080",
            "--workers",
            "1",
            "--rounds",
            "100000001",
        ],
        None,
    ),
];

// The day of `report`, and the numbers of `drill`.
const READ: &[Words] = &[
    (
        "a leap day",
        &["report", "--journal", "j", "--day", "2024-02-29"],
        Some(Subcommand::Report(1_709_164_800)),
    ),
    (
        "the last day",
        &["report", "--day=9986-12-31", "--journal=j"],
        Some(Subcommand::Report(252_991_987_200)),
    ),
    (
        "a drill",
        &["drill", "--count=1", "--seed=1"],
        Some(Subcommand::Drill(DrillOptions { seed: 1, count: 1 })),
    ),
    (
        "the greatest seed and the most movements",
        &[
            "drill",
            "--seed",
            "18446744073709551615",
            "--count",
            "60000",
        ],
        Some(Subcommand::Drill(DrillOptions {
            seed: 18_446_744_073_709_551_615,
            count: 60_000,
        })),
    ),
    (
        "leading zeros",
        &["drill", "--seed", "00000000000000000001", "--count", "0"],
        Some(Subcommand::Drill(DrillOptions { seed: 1, count: 0 })),
    ),
    (
        "a movement too many",
        &["drill", "--count", "60001", "--seed", "0"],
        None,
    ),
];

// The command that words are.
fn command_of(alloc: Global, words: &[&str]) -> Result<Option<Subcommand>, Fail> {
    let owned = words_of(alloc, words)?;
    let command = match CommandName::of_words(&owned) {
        Some(name) => Subcommand::read(alloc, name, &owned).map(Some),
        None => Ok(None),
    };
    drop(owned);
    Ok(command?)
}

// Each of these words is its command.
fn check_commands<R: Print>(
    checks: &mut Checks<'_, R>,
    alloc: Global,
    rows: &[Words],
) -> Result<(), Fail> {
    for (name, words, want) in rows {
        let command = command_of(alloc, words)?;
        checks.same_at(name, command, *want);
    }
    Ok(())
}

#[test]
fn numbers_of_serve(rt: HostRuntime) -> Result<(), Fail> {
    let mut checks = Checks::new(&rt);
    check_commands(&mut checks, rt.alloc(), SERVED)?;
    Ok(checks.end()?)
}

#[test]
fn values_of_report_and_drill(rt: HostRuntime) -> Result<(), Fail> {
    let mut checks = Checks::new(&rt);
    check_commands(&mut checks, rt.alloc(), READ)?;
    Ok(checks.end()?)
}
