//! The issued capacity tables.

ghost use Rattle.std.specs.Prelude.{◌*◌, ◌≤◌, length, map, IsTrue};
ghost use Rattle.farm_base.specs.Appended.{Appends};
ghost use Rattle.farm_site.specs.Tanks.{tank_number};
ghost use Rattle.farm_site.specs.Numbers.{rises};
ghost use Rattle.strap_table.specs.declared.faults.TheConstants.{MOST_ROWS};
ghost use Rattle.text_pieces.specs.Pieces.{Lengthens};
ghost use Rattle.farm_report.specs.Issued.{issued_text, row_line, rows_from, tank_line, tank_text};

use farm_fixed::NoMemory;
use farm_site::{Site, Tank};
use text_pieces::{Piece, append};

/// Appends the issued capacity tables of a site: for each tank, by rising number, `tank T` and a line `MM LITRES` for each row.
///
/// Levels are from 0 up, 10 mm apart. On `NoMemory` the buffer is as before.
pub fn issued(site: &Site, out: &mut Vec<u8>) -> Result<(), NoMemory>
    ensures appended { Appends out.old.items out.new.items (issued_text site.now.tanks) result }
    ensures rising { IsTrue (rises (map tank_number site.now.tanks)) }
{
    let before = out.len();
    let written = write_tanks(site.tanks.get(), out);
    if written.is_err() {
        out.truncate(before);
    }
    written
}

// Appends the texts of tanks.
fn write_tanks(tanks: &[Tank], out: &mut Vec<u8>) -> Result<(), NoMemory>
    ensures tanks { Lengthens out.old.items out.new.items (issued_text tanks.now) result }
{
    for tank in tanks {
        write_tank(tank, out)?;
    }
    Ok(())
}

// Appends the text of a tank.
fn write_tank(tank: &Tank, out: &mut Vec<u8>) -> Result<(), NoMemory>
    ensures tank { Lengthens out.old.items out.new.items (tank_text tank.now) result }
{
    write_tank_line(tank.number, out)?;
    write_rows(tank.table.rows(), out)
}

// Appends the line above the rows of a tank.
fn write_tank_line(number: u16, out: &mut Vec<u8>) -> Result<(), NoMemory>
    ensures line { Lengthens out.old.items out.new.items (tank_line number) result }
{
    append(
        out,
        &[
            Piece::Text(b"tank "),
            Piece::Number(u64::from(number)),
            Piece::Text(b"\n"),
        ],
    )
}

// Appends the lines of rows.
fn write_rows(rows: &[i64], out: &mut Vec<u8>) -> Result<(), NoMemory>
    requires { length rows.now ≤ MOST_ROWS }
    ensures rows { Lengthens out.old.items out.new.items (rows_from 0 rows.now) result }
{
    for (index, litres) in rows.iter().enumerate() {
        write_row(10 * index, *litres, out)?;
    }
    Ok(())
}

// Appends the line of a row.
fn write_row(mm: usize, litres: i64, out: &mut Vec<u8>) -> Result<(), NoMemory>
    ensures line { Lengthens out.old.items out.new.items (row_line mm litres) result }
{
    append(
        out,
        &[
            Piece::Number(mm as u64),
            Piece::Text(b" "),
            Piece::Signed(litres),
            Piece::Text(b"\n"),
        ],
    )
}
