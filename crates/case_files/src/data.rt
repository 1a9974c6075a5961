//! Reading the files of the folder of the cases.

use crate::fault::CaseFault;
use farm_ports::{Folder, PortFault};
use std::alloc::Global;
use toml::Table;

// A file of the folder of the cases has at most this many bytes.
const MOST_FILE_BYTES: usize = 16_777_216;

/// The bytes of a file.
pub fn read_file<F: Folder>(alloc: Global, data: &mut F, name: &str) -> Result<Vec<u8>, CaseFault> {
    match data.read(alloc, name, MOST_FILE_BYTES + 1) {
        Ok(bytes) if bytes.len() > MOST_FILE_BYTES => {
            Err(CaseFault::TooLong(String::from_str(alloc, name)?))
        }
        Ok(bytes) => Ok(bytes),
        Err(PortFault::Failed) => Err(CaseFault::Unread(String::from_str(alloc, name)?)),
        Err(PortFault::NoMemory) => Err(CaseFault::NoMemory),
    }
}

/// The table that a TOML file is.
pub fn read_table<F: Folder>(alloc: Global, data: &mut F, name: &str) -> Result<Table, CaseFault> {
    let bytes = read_file(alloc, data, name)?;
    Ok(toml::table_from_slice(alloc, &bytes)?)
}
