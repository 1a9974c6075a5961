//! The files of a site's folder, read whole.

ghost use Rattle.std.specs.Prelude.{◌≡◌, List, MatchResult, Ok, Err, Some, IfErr};
ghost use Rattle.toml.specs.View.{view};
ghost use Rattle.farm_base.specs.Counts.{CountsIf};
ghost use Rattle.farm_base.specs.Known.{Stays};
ghost use Rattle.farm_base.specs.Steps.{IsRefusedAs};
ghost use Rattle.farm_ports.specs.Folders.{File};
ghost use Rattle.site_keys.specs.Faults.{IsNotTheFolders, refusal_of, reported};
ghost use Rattle.site_keys.specs.Files.{FailsAsMissing, content, toml_of};
ghost use Rattle.site_keys.specs.Keys.{keys_of};

use crate::codes::{TEXT, TOO_LONG};
use crate::{SiteReadFault, bad};
use farm_ports::Folder;
use std::alloc::Global;
use toml::Value;

// A file of a site has at most this many bytes.
pub(crate) const MOST_FILE_BYTES: usize = 4_194_304;

/// The bytes of the file with a name. One byte more than a file may have is asked for, so that a longer one shows.
pub fn content<F: Folder>(
    alloc: Global,
    folder: &mut F,
    item: u32,
    name: &str,
) -> Result<Vec<u8>, SiteReadFault>
    ensures content { (files : List File) → F.files folder.new ≡ Some files →
        MatchResult result (λ bytes. content files item name.now ≡ Ok bytes.items)
        (λ fault. IsRefusedAs (refusal_of fault) (content files item name.now)) }
    ensures files { Stays (F.files folder.old) (F.files folder.new) }
    ensures counts { CountsIf (result ≡ Err SiteReadFault.Folder) (F.faults folder.old) (F.faults folder.new) }
    ensures missing_only { F.lists_no_failure folder.old → FailsAsMissing (F.files folder.new) result (λ files. content files item name.now) }
    ensures lists { F.lists_no_failure folder.old → F.lists_no_failure folder.new }
{
    let bytes = folder.read(alloc, name, MOST_FILE_BYTES + 1)?;
    if bytes.len() > MOST_FILE_BYTES {
        return Err(bad(TOO_LONG, item).into());
    }
    Ok(bytes)
}

/// The table of a file that is UTF-8 and TOML.
#[tactic(auto, unfolding(crate::specs::Files::toml_of))]
pub fn toml_of(alloc: Global, item: u32, bytes: &[u8]) -> Result<Value, SiteReadFault>
    ensures table { MatchResult result (λ table. toml_of item bytes.now ≡ Ok (keys_of item (view table)))
        (λ fault. IsRefusedAs (reported fault) (toml_of item bytes.now)) }
    ensures not_the_folders { IfErr result IsNotTheFolders }
{
    match toml::table_from_slice(alloc, bytes) {
        Ok(table) => Ok(Value::Table(table)),
        Err(error) if error.is_memory() => Err(SiteReadFault::NoMemory),
        Err(_) => Err(bad(TEXT, item).into()),
    }
}
