//! A folder in memory.

ghost use Rattle.std.specs.Prelude.{◌≡◌, ◌≢◌, ◌↔◌, ◌≤◌, ◌⊎◌, [], IfOk, IsOk, option_map, Some, None};
ghost use Rattle.farm_base.specs.Counts.{CountsIf};
ghost use Rattle.farm_base.specs.Known.{Stays, WhereKnown};
ghost use Rattle.farm_ports.specs.Folders.{ReadsFile, file_named, files_of};

use crate::failing_calls::FailingCalls;
use crate::{Folder, FolderFault, PortFault};
use farm_base::NoMemory;
use std::alloc::Global;
use std::marker::Model;

/// A folder that keeps files in memory, and fails the reads that it has in a list.
///
/// Of two files with one name the first counts.
#[derive(Drop)]
pub struct Files {
    files: Vec<(String, Vec<u8>)>,
    calls: FailingCalls,
}

impl Model for Files {
    ghost use Rattle.farm_ports.specs.Objects.{FilesState};
    ghost use Rattle.farm_ports.specs.Folders.{files_of};

    ghost Value = { FilesState };

    ghost view = { λ folder. record { files = files_of folder.files.items; calls = folder.calls } };
}

impl Files {
    ghost use Rattle.farm_ports.specs.Objects.{no_calls};

    /// A folder of these files, by their names, whose reads of these numbers, counted from 1, fail.
    ///
    /// It keeps the list as it is, and so takes no memory.
    pub fn new(_: Global, files: Vec<(String, Vec<u8>)>, fails: Vec<u64>) -> Result<Self, NoMemory>
        ensures made { IsOk result }
        ensures known { IfOk result (λ folder. ⟦<Files as Folder>⟧.files folder ≡ Some (files_of files.items)) }
        ensures faults { IfOk result (λ folder. ⟦<Files as Folder>⟧.faults folder ≡ 0) }
        ensures calls { IfOk result (λ folder. folder.calls ≡ no_calls fails.items) }
        ensures unlisted { fails.items ≡ [] → IfOk result (λ folder. ⟦<Files as Folder>⟧.lists_no_failure folder) }
    {
        Ok(Files {
            files,
            calls: FailingCalls::new(fails),
        })
    }

    /// How many of its reads failed; the count stands still at the last `u64`.
    pub fn faults(&self) -> u64
        ensures faults { result ≡ ⟦<Files as Folder>⟧.faults self.now }
    {
        self.calls.faults()
    }
}

impl Folder for Files {
    ghost use Rattle.farm_ports.specs.Objects.{CountsCall, FailsNext};

    ghost files = { λ folder. Some folder.files };

    ghost faults = { λ folder. folder.calls.faults };

    ghost lists_no_failure = { λ folder. folder.calls.failing ≡ [] };

    fn read(&mut self, alloc: Global, name: &str, most: usize) -> Result<Vec<u8>, FolderFault>
        ensures bytes { IfOk result (λ bytes. WhereKnown (⟦<Files as Folder>⟧.files self.new) (ReadsFile name.now most bytes.items)) }
        ensures files { Stays (⟦<Files as Folder>⟧.files self.old) (⟦<Files as Folder>⟧.files self.new) }
        ensures counts { CountsIf (result ≡ Err PortFault.Failed) (⟦<Files as Folder>⟧.faults self.old) (⟦<Files as Folder>⟧.faults self.new) }

        // A listed read fails, and so does that of a name that no file has; any other gives bytes or finds no memory.
        ensures listed { FailsNext self.old.calls → result ≡ Err PortFault.Failed }
        ensures missing { (result ≡ Err PortFault.Failed)
            ↔ (FailsNext self.old.calls ⊎ (file_named name.now self.old.files ≡ None)) }
        ensures counted { CountsCall self.old.calls self.new.calls }
        ensures kept { ⟦<Files as Folder>⟧.files self.new ≡ ⟦<Files as Folder>⟧.files self.old }
        ensures missing_only { ⟦<Files as Folder>⟧.lists_no_failure self.old → result ≡ Err PortFault.Failed →
            WhereKnown (⟦<Files as Folder>⟧.files self.new) (λ files. file_named name.now files ≡ None) }
        ensures lists { ⟦<Files as Folder>⟧.lists_no_failure self.old → ⟦<Files as Folder>⟧.lists_no_failure self.new }
    {
        self.calls.begin()?;
        let Some(bytes) = file_named(&self.files, name) else {
            return Err(self.calls.fault().into());
        };
        Ok(bytes[..most.min(bytes.len())].to_vec(alloc)?)
    }
}

// The bytes of the first file with a name.
fn file_named<'a>(files: &'a [(String, Vec<u8>)], name: &str) -> Option<&'a [u8]>
    ensures { option_map (λ bytes. bytes.now) result ≡ file_named name.now (files_of files.now) }
{
    for (own, bytes) in files {
        if own.as_str() == name {
            return Some(bytes);
        }
    }
    None
}
