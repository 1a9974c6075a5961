//! A folder of the system.

ghost use Rattle.std.specs.Prelude.{◌≡◌, ◌≢◌, ◌≤◌, length, string_bytes, IfOk, None};
ghost use Rattle.farm_base.specs.Counts.{CountsIf};
ghost use Rattle.farm_base.specs.Known.{Stays, WhereKnown};
ghost use Rattle.farm_ports.specs.Folders.{ReadsFile, file_named};

use crate::{Failed, Folder, FolderFault, PortFault, StdSource, read_up_to};
use std::alloc::Global;
use std::fs;
use std::marker::Model;
use std::rt::Files;

/// A folder over a directory of the system. Nothing is known of its files.
///
/// A name is that of a file in the directory, or its path from there. A read opens the file anew and closes it,
/// and whatever the system answers but the bytes is a fault.
#[derive(Drop)]
pub struct DirFolder<R> {
    rt: R,
    directory: String,
    faults: u64,
}

impl<R> Model for DirFolder<R> {
    ghost use Rattle.std.specs.Prelude.{ℕ, List, string_bytes};
    ghost use Rattle.farm_ports.specs.Objects.{Counted};

    ghost Value = { Counted (List ℕ) };

    ghost view = { λ folder. record { over = string_bytes folder.directory; faults = folder.faults } };
}

impl<R: Files> DirFolder<R> {
    /// A folder over the directory of this path, before its first fault; `.` is where the program runs.
    pub fn new(rt: R, directory: String) -> Self
        ensures directory { result.over ≡ string_bytes directory }
        ensures faults { ⟦<DirFolder<R> as Folder>⟧.faults result ≡ 0 }
    {
        DirFolder {
            rt,
            directory,
            faults: 0,
        }
    }

    /// How many of its reads failed; the count stands still at the last `u64`.
    pub fn faults(&self) -> u64
        ensures faults { result ≡ ⟦<DirFolder<R> as Folder>⟧.faults self.now }
    {
        self.faults
    }
}

impl<R: Files> Folder for DirFolder<R> {
    ghost files = { λ _. None };

    ghost faults = { λ folder. folder.faults };

    ghost lists_no_failure = { λ _. ⊥ };

    fn read(&mut self, alloc: Global, name: &str, most: usize) -> Result<Vec<u8>, FolderFault>
        ensures bytes { IfOk result (λ bytes. WhereKnown (⟦<DirFolder<R> as Folder>⟧.files self.new) (ReadsFile name.now most bytes.items)) }
        ensures files { Stays (⟦<DirFolder<R> as Folder>⟧.files self.old) (⟦<DirFolder<R> as Folder>⟧.files self.new) }
        ensures counts { CountsIf (result ≡ Err PortFault.Failed) (⟦<DirFolder<R> as Folder>⟧.faults self.old) (⟦<DirFolder<R> as Folder>⟧.faults self.new) }

        // Of the bytes no clause says more than how many there may be.
        ensures within { IfOk result (λ bytes. length bytes.items ≤ most) }
        ensures directory { self.new.over ≡ self.old.over }
        ensures missing_only { ⟦<DirFolder<R> as Folder>⟧.lists_no_failure self.old → result ≡ Err PortFault.Failed →
            WhereKnown (⟦<DirFolder<R> as Folder>⟧.files self.new) (λ files. file_named name.now files ≡ None) }
        ensures lists { ⟦<DirFolder<R> as Folder>⟧.lists_no_failure self.old → ⟦<DirFolder<R> as Folder>⟧.lists_no_failure self.new }
    {
        let path = format!(in alloc; "{}/{name}", self.directory)?;
        match front_of(&self.rt, alloc, path.as_str(), most) {
            Err(PortFault::Failed) => Err(Failed::counted_in(&mut self.faults).into()),
            answer => answer,
        }
    }
}

// The first `most` bytes of the file at a path. It leaves a fault for the caller to count.
fn front_of<R: Files>(
    rt: &R,
    alloc: Global,
    path: &str,
    most: usize,
) -> Result<Vec<u8>, FolderFault>
    ensures { IfOk result (λ bytes. length bytes.items ≤ most) }
{
    let file = fs::open(rt, path).map_err(|_| Failed)?;
    read_up_to(alloc, &mut StdSource::new(file), most)
}
