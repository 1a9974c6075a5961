//! A site of two tanks, whose bytes are few.

use farm_base::NoMemory;
use farm_ports::Files;
use farm_site::Site;
use site_file::ReadSite;
use std::alloc::Global;
use std::test::Fail;

// The files: tanks 1 and 2 of one product and one table.
const FILES: &[(&str, &str)] = &[
    (
        "site.toml",
        r#"format = 1
name = "Small"

[[product]]
number = 1
name = "P"
factors = "factors.csv"

[[tank]]
number = 1
product = 1
shell = "insulated"
coefficient = 112
reference_temperature = "15.00"
reference_height = 16000
table = "table.csv"
opening_litres = 700
opening_kg = 600

[[tank]]
number = 2
product = 1
shell = "insulated"
coefficient = 112
reference_temperature = "15.00"
reference_height = 16000
table = "table.csv"
opening_litres = 50
opening_kg = 40
"#,
    ),
    (
        "factors.csv",
        "density,temperature,factor\n840.0,10.00,1.00000\n840.0,20.00,0.99570\n850.0,10.00,1.00000\n850.0,20.00,0.99580\n",
    ),
    ("table.csv", "mm,litres\n0,0\n10,1000\n"),
];

// Adds copies of the files to a list.
fn add_files(files: &mut Vec<(String, Vec<u8>)>, alloc: Global) -> Result<(), NoMemory> {
    for (name, text) in FILES {
        let name = String::from_str(alloc, name)?;
        let bytes = Vec::from_slice(alloc, text.as_bytes())?;
        files.push((name, bytes))?;
    }
    Ok(())
}

// A folder of the files.
fn folder(alloc: Global) -> Result<Files, NoMemory> {
    let mut files = Vec::new(alloc);
    if let Err(fault) = add_files(&mut files, alloc) {
        drop(files);
        return Err(fault);
    }
    Files::new(alloc, files, Vec::new(alloc))
}

/// The site.
pub(crate) fn small_site(alloc: Global) -> Result<Site, Fail> {
    let mut folder = folder(alloc)?;
    let site = Site::read(alloc, &mut folder);
    drop(folder);
    Ok(site?)
}
