//! The volume at a level between the rows of a capacity table, and rows that make no table.

use farm_fixed::{Centi, Kg, Mm, OutOfRange, Shell};
use farm_rounding::Mode;
use std::alloc::{AllocError, Global};
use std::fmt::Debug;
use std::test::Fail;
use strap_table::{AboveTable, CapTable, Roof, TableFault, TankSpec};
use test_checks::{Checks, shared};

// The table of these rows.
fn table_of(alloc: Global, rows: &[i64]) -> Result<CapTable, Fail> {
    Ok(CapTable::from_rows(rows.to_vec(alloc)?)?)
}

// The volume at a number of mm, to the litre.
fn litres_at(
    table: &CapTable,
    millimetres: i64,
    mode: Mode,
) -> Result<Result<i64, AboveTable>, OutOfRange> {
    let level = Mm::new(millimetres)?;
    Ok(table.at(level, 1, mode).map(|volume| volume.get()))
}

// Levels in mm, and the litres at each.
type Volumes = &'static [(&'static str, i64, Mode, Result<i64, AboveTable>)];

// The volumes of a table are those of these rows.
fn check_volumes<R: Print>(checks: &mut Checks<'_, R>, table: &CapTable, volumes: Volumes) {
    for (name, millimetres, mode, want) in volumes {
        let litres = litres_at(table, *millimetres, *mode);
        checks.same_at(name, litres, Ok(shared(*want)));
    }
}

const THREE_ROWS: &[i64] = &[0, 1_000, 3_000];

const OF_THREE_ROWS: Volumes = &[
    ("the first row", 0, Mode::HalfAway, Ok(0)),
    ("half of the first step", 5, Mode::HalfAway, Ok(500)),
    ("the second row", 10, Mode::HalfAway, Ok(1_000)),
    ("a part of the second step", 13, Mode::HalfAway, Ok(1_600)),
    ("the last row", 20, Mode::HalfAway, Ok(3_000)),
    ("above the last row", 21, Mode::HalfAway, Err(AboveTable)),
];

#[test]
fn a_volume_is_interpolated_between_two_rows(rt: HostRuntime) -> Result<(), Fail> {
    let mut checks = Checks::new(&rt);
    let table = shared(table_of(rt.alloc(), THREE_ROWS)?);
    check_volumes(&mut checks, &table, OF_THREE_ROWS);
    checks.same_at("the rows", table.rows(), THREE_ROWS);
    drop(table);
    Ok(checks.end()?)
}

const HALF_A_LITRE: Volumes = &[
    ("a half away from zero", 5, Mode::HalfAway, Ok(501)),
    ("a half toward zero", 5, Mode::TowardZero, Ok(500)),
    ("a half to the even litre", 5, Mode::HalfEven, Ok(500)),
];

const A_LITRE_MORE: Volumes = &[
    ("the next half away from zero", 5, Mode::HalfAway, Ok(502)),
    ("the next half toward zero", 5, Mode::TowardZero, Ok(501)),
    (
        "the next half to the even litre",
        5,
        Mode::HalfEven,
        Ok(502),
    ),
];

// The volumes of a table of these rows are those of these rows.
fn check_table<R: Print>(
    checks: &mut Checks<'_, R>,
    alloc: Global,
    rows: &[i64],
    volumes: Volumes,
) -> Result<(), Fail> {
    let table = table_of(alloc, rows)?;
    check_volumes(checks, &table, volumes);
    drop(table);
    Ok(())
}

#[test]
fn a_half_litre_goes_by_the_mode(rt: HostRuntime) -> Result<(), Fail> {
    let mut checks = Checks::new(&rt);
    for (rows, volumes) in [([0, 1_001], HALF_A_LITRE), ([0, 1_003], A_LITRE_MORE)] {
        check_table(&mut checks, rt.alloc(), &rows, volumes)?;
    }
    Ok(checks.end()?)
}

// Why rows are no table, if they aren't one.
fn fault_of(alloc: Global, rows: &[i64]) -> Result<Option<TableFault>, AllocError> {
    Ok(CapTable::from_rows(rows.to_vec(alloc)?).err())
}

#[test]
fn rows_are_refused_at_their_first_fault(rt: HostRuntime) -> Result<(), Fail> {
    let mut checks = Checks::new(&rt);
    let cases = [
        ("one row", &[7][..], Some(TableFault::Short)),
        ("5,002 rows", &[0; 5_002][..], Some(TableFault::TooMany)),
        (
            "a negative row",
            &[0, -1][..],
            Some(TableFault::OutOfRange(1)),
        ),
        (
            "a negative row after one that falls",
            &[5, 4, -1][..],
            Some(TableFault::OutOfRange(2)),
        ),
        (
            "a row that falls",
            &[5, 4][..],
            Some(TableFault::Falling(1)),
        ),
        ("equal rows", &[0, 0][..], None),
        ("the greatest row", &[0, 1_000_000_000][..], None),
        ("5,001 rows", &[0; 5_001][..], None),
    ];
    for (name, rows, want) in cases {
        checks.same_at(name, fault_of(rt.alloc(), rows)?, want);
    }
    Ok(checks.end()?)
}

// A roof of 85,000 kg with its zone from 1,500 to 1,800 mm.
fn roof() -> Result<Roof, OutOfRange> {
    Ok(Roof {
        mass: Kg::new(85_000)?,
        low: Mm::new(1_500)?,
        high: Mm::new(1_800)?,
        reference: None,
    })
}

// A value may go to another thread.
fn check_shared<T: Send + Sync + Copy + PartialEq + Debug + Drop, R: Print>(
    checks: &mut Checks<'_, R>,
    name: &str,
    value: T,
) {
    checks.same_at(name, shared(value), value);
}

#[test]
fn tanks_and_roofs_may_go_to_another_thread(rt: HostRuntime) -> Result<(), Fail> {
    let mut checks = Checks::new(&rt);
    let roof = roof()?;
    let tank = TankSpec {
        shell: Shell {
            insulated: false,
            coefficient: 112,
            reference: Centi::new(1_500)?,
        },
        height: Mm::new(15_000)?,
        roof: Some(roof),
    };
    check_shared(&mut checks, "a roof", roof);
    check_shared(&mut checks, "a tank", tank);
    Ok(checks.end()?)
}
