//! Folders in memory, and their sites.

use farm_ports::Files;
use farm_site::Site;
use site_file::ReadSite;
use std::alloc::{AllocError, Global};
use std::test::Fail;

// Adds a file.
fn add_file(
    kept: &mut Vec<(String, Vec<u8>)>,
    alloc: Global,
    name: &str,
    text: &str,
) -> Result<(), AllocError> {
    let name = String::from_str(alloc, name)?;
    let bytes = text.as_bytes().to_vec(alloc)?;
    kept.push((name, bytes))?;
    Ok(())
}

// A folder of files, no call on which fails.
fn folder_of(alloc: Global, files: &[(&str, &str)]) -> Result<Files, Fail> {
    let mut kept = Vec::new(alloc);
    for (name, text) in files {
        add_file(&mut kept, alloc, name, text)?;
    }
    Ok(Files::new(alloc, kept, Vec::new(alloc))?)
}

/// The site of a folder of files.
pub(crate) fn site_of(alloc: Global, files: &[(&str, &str)]) -> Result<Site, Fail> {
    let mut folder = folder_of(alloc, files)?;
    Ok(Site::read(alloc, &mut folder)?)
}
