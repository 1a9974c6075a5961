//! Folders of files.

ghost use Rattle.std.specs.Prelude.{◌≡◌, ◌≢◌, ◌≤◌, ℕ, List, Option, IfOk, None};
ghost use Rattle.farm_base.specs.Counts.{CountsIf};
ghost use Rattle.farm_base.specs.Known.{Stays, WhereKnown};
ghost use Rattle.farm_ports.specs.Folders.{File, ReadsFile, file_named};

use crate::PortFault;
use std::alloc::Global;

/// Why a folder gave no bytes: it failed and counted the fault, or there was no memory.
pub type FolderFault = PortFault;

/// A folder of files.
pub trait Folder {
    /// Its files, where they are known.
    ghost files: { Self → Option (List File) };

    /// How many faults it has counted. The count stands still at the last `u64`.
    ghost faults: { Self → ℕ };

    /// None of its reads is listed to fail: one fails only where no file has the name.
    ghost lists_no_failure: { Self → Type 0 };

    /// The first `most` bytes of the file with this name, or all of them where there are fewer.
    ///
    /// A missing file is a fault. Whatever is answered, the files stay as they were.
    fn read(&mut self, alloc: Global, name: &str, most: usize) -> Result<Vec<u8>, FolderFault>
        ensures bytes { IfOk result (λ bytes. WhereKnown (Self.files self.new) (ReadsFile name.now most bytes.items)) }
        ensures files { Stays (Self.files self.old) (Self.files self.new) }
        ensures counts { CountsIf (result ≡ Err PortFault.Failed) (Self.faults self.old) (Self.faults self.new) }

        // Where no failure is listed, a read fails only for a name that no file has, and none is listed afterwards.
        ensures missing_only { Self.lists_no_failure self.old → result ≡ Err PortFault.Failed →
            WhereKnown (Self.files self.new) (λ files. file_named name.now files ≡ None) }
        ensures lists { Self.lists_no_failure self.old → Self.lists_no_failure self.new };
}
