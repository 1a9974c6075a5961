//! The files of the row site.

ghost use Rattle.std.specs.Prelude.{◌≡◌, ◌++◌, ◌∷◌, [], IfOk, OnOk, Some};
ghost use Rattle.farm_ports.specs.Folders.{files_of};
ghost use Rattle.farm_ports.specs.Objects.{no_calls};
ghost use Rattle.sample_site.specs.Files.{row_files};

use crate::table::table_text;
use farm_base::NoMemory;
use farm_ports::{Files, Folder};
use std::alloc::Global;

/// What `site.toml` has.
pub const SITE: &str = r#"format = 1
name = "Rowsite"

[[product]]
number = 1
name = "Product 1"
factors = "factors.csv"

[[product]]
number = 2
name = "Product 2"
factors = "factors.csv"

[[party]]
number = 7
name = "Party 7"

[[party]]
number = 8
name = "Party 8"

[[tank]]
number = 101
product = 1
shell = "insulated"
coefficient = 112
reference_temperature = "15.00"
reference_height = 16000
table = "table.csv"
opening_litres = 8000000
opening_kg = 6800000

[[tank]]
number = 102
product = 1
shell = "insulated"
coefficient = 112
reference_temperature = "15.00"
reference_height = 16000
table = "table.csv"
opening_litres = 5000000
opening_kg = 4250000

[[tank]]
number = 103
product = 1
shell = "insulated"
coefficient = 112
reference_temperature = "15.00"
reference_height = 16000
table = "table.csv"
opening_litres = 0
opening_kg = 0

[[tank]]
number = 104
product = 1
shell = "insulated"
coefficient = 112
reference_temperature = "15.00"
reference_height = 16000
table = "table.csv"
opening_litres = 0
opening_kg = 0

[[tank]]
number = 105
product = 2
shell = "insulated"
coefficient = 112
reference_temperature = "15.00"
reference_height = 16000
table = "table.csv"
opening_litres = 0
opening_kg = 0

[[tank]]
number = 106
product = 1
shell = "insulated"
coefficient = 112
reference_temperature = "15.00"
reference_height = 16000
roof_kg = 85000
roof_low = 1500
roof_high = 1800
table = "table.csv"
opening_litres = 0
opening_kg = 0
"#;

/// What `factors.csv` has, the factors of both products.
pub const FACTORS: &str =
    "density,temperature,factor\n840.0,15.00,1.00000\n840.0,20.00,0.99570\n840.0,25.00,0.99140\n850.0,15.00,1.00000\n850.0,20.00,0.99580\n850.0,25.00,0.99150\n860.0,15.00,1.00000\n860.0,20.00,0.99590\n860.0,25.00,0.99160\n";

/// The files, by their names: `site.toml`, `factors.csv` and `table.csv`.
#[tactic(auto, unfolding(crate::specs::Files::row_files))]
pub fn row_files(alloc: Global) -> Result<Vec<(String, Vec<u8>)>, NoMemory>
    ensures files { IfOk result (λ files. files_of files.items ≡ row_files) }
{
    let mut files = Vec::new(alloc);
    add_file(
        &mut files,
        alloc,
        "site.toml",
        Vec::from_slice(alloc, SITE.as_bytes())?,
    )?;
    add_file(
        &mut files,
        alloc,
        "factors.csv",
        Vec::from_slice(alloc, FACTORS.as_bytes())?,
    )?;
    add_file(&mut files, alloc, "table.csv", table_text(alloc)?)?;
    Ok(files)
}

/// A folder in memory of these files, no call on which fails.
pub fn row_folder(alloc: Global) -> Result<Files, NoMemory>
    ensures files { IfOk result (λ folder. ⟦<Files as Folder>⟧.files folder ≡ Some row_files) }
    ensures calls { IfOk result (λ folder. folder.calls ≡ no_calls []) }
{
    Files::new(alloc, row_files(alloc)?, Vec::new(alloc))
}

// Adds a file.
fn add_file(
    files: &mut Vec<(String, Vec<u8>)>,
    alloc: Global,
    name: &str,
    bytes: Vec<u8>,
) -> Result<(), NoMemory>
    ensures added { OnOk result (files_of files.new.items ≡ files_of files.old.items ++ record { name = name.now; bytes = bytes.items } ∷ []) }
{
    files.push((String::from_str(alloc, name)?, bytes))?;
    Ok(())
}
