//! Texts of pieces, one piece of each kind.

ghost use Rattle.std.specs.Prelude.{◌++◌, codes, decimal};
ghost use Rattle.std.specs.Fmt.{signed_decimal};
ghost use Rattle.farm_base.specs.Appended.{Appends};

use farm_base::NoMemory;
use farm_fixed::Dens;
use std::alloc::Global;
use std::test::Fail;
use test_checks::Checks;
use text_pieces::{Piece, append};

// Appends the line of a row: its level in mm, a blank, its litres.
fn write_row(out: &mut Vec<u8>, mm: u64, litres: i64) -> Result<(), NoMemory>
    ensures { Appends out.old.items out.new.items (decimal mm ++ codes " " ++ signed_decimal litres ++ codes "\n") result }
{
    append(
        out,
        &[
            Piece::Number(mm),
            Piece::Text(b" "),
            Piece::Signed(litres),
            Piece::Text(b"\n"),
        ],
    )
}

// Appends a piece of each kind, with a bar after it.
fn add_pieces(out: &mut Vec<u8>, density: Dens) -> Result<(), NoMemory> {
    let pieces = [
        Piece::Text(b"a b"),
        Piece::Number(u64::MAX),
        Piece::Signed(i64::MIN),
        Piece::from(density),
        Piece::Quantity {
            places: 5,
            units: -1,
        },
        Piece::Quantity {
            places: 0,
            units: 0,
        },
    ];
    for piece in pieces {
        append(out, &[piece, Piece::Text(b"|")])?;
    }
    Ok(())
}

// Appends the line of a row, nothing, and then a piece of each kind.
fn add_all(out: &mut Vec<u8>, density: Dens) -> Result<(), NoMemory> {
    write_row(out, 10, -2_500)?;
    append(out, &[])?;
    add_pieces(out, density)
}

// A line, and what is appended to it.
fn pieces_text(alloc: Global, density: Dens) -> Result<Vec<u8>, NoMemory> {
    let mut out = b"rows\n".to_vec(alloc)?;
    if let Err(fault) = add_all(&mut out, density) {
        drop(out);
        return Err(fault);
    }
    Ok(out)
}

#[test]
fn pieces_are_appended_one_after_another(rt: HostRuntime) -> Result<(), Fail> {
    let mut checks = Checks::new(&rt);
    let text = pieces_text(rt.alloc(), Dens::new(8_505)?)?;
    let lines = "rows\n10 -2500\na b|18446744073709551615|-9223372036854775808|850.5|-0.00001|0|";
    checks.same(text.as_slice(), lines.as_bytes());
    drop(text);
    Ok(checks.end()?)
}
