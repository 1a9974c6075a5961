//! The site `row` beside the row site of the worked rows.

use case_files::{CaseFault, read_file};
use farm_ports::Folder;
use sample_site::row_files;
use std::alloc::Global;

/// Whether the site `row` of the cases has the files that the worked rows have.
pub fn has_row_site<F: Folder>(alloc: Global, data: &mut F) -> Result<bool, CaseFault> {
    for (name, bytes) in &row_files(alloc)? {
        let path = format!(in alloc; "row/{name}")?;
        if read_file(alloc, data, &path)? != *bytes {
            return Ok(false);
        }
    }
    Ok(true)
}
