//! A disk over a file of the system.

ghost use Rattle.std.specs.Prelude.{◌≡◌, ◌≤◌, ◌+◌, length, string_bytes, IfOk, None, OnErr, OnOk};
ghost use Rattle.farm_base.specs.Counts.{CountsOnce, Rose, raised};
ghost use Rattle.farm_base.specs.Known.{WhereKnown};
ghost use Rattle.farm_disk.specs.Calls.{Measures, Passes, Reads, Syncs, Writes};
ghost use Rattle.farm_disk.specs.Files.{two_moments_more};
ghost use Rattle.farm_disk.specs.Images.{IsCrashImage, present};

use crate::file_at_first_call::LateFile;
use crate::{Disk, Stand};
use farm_ports::Failed;
use std::fs::File;
use std::io;
use std::marker::Model;
use std::rt::Files;

/// A disk over a file of the system. Nothing is known of its bytes.
///
/// It opens its file at its first call, creates it empty where it is missing, and follows a link. A call that can't open it
/// fails, and the next one tries again. It takes no file but a regular one. From then on until it is dropped it has the file's
/// lock (`flock`): a second disk over the file gets none, in another process or in this one, and its calls fail. An offset above
/// 2^63 - 1 is a fault.
#[derive(Drop)]
pub struct FileDisk<R> {
    file: LateFile<R>,
    moment: u64,
    faults: u64,
}

impl<R> Model for FileDisk<R> {
    ghost use Rattle.farm_disk.specs.Files.{FileState};

    ghost Value = { FileState };

    ghost view = { λ disk. record { path = disk.file; moment = disk.moment; faults = disk.faults } };
}

impl<R: Files<File = File> + AllocGlobal> FileDisk<R> {
    /// A disk over the file at this path, not opened yet, at its first moment and before its first fault.
    pub fn new(rt: R, path: String) -> Self
        ensures path { result.path ≡ string_bytes path }
        ensures moment { ⟦<FileDisk<R> as Disk>⟧.moment result ≡ 0 }
        ensures faults { ⟦<FileDisk<R> as Disk>⟧.faults result ≡ 0 }
    {
        FileDisk {
            file: LateFile::new(rt, path),
            moment: 0,
            faults: 0,
        }
    }

    // Counts a fault, and answers what the call that met it returns.
    fn fault(&mut self) -> Failed
        ensures rose { Rose self.old.faults self.new.faults }
        ensures never_falls { self.old.faults ≤ self.new.faults }
        ensures once { self.new.faults ≡ raised 1 self.old.faults }
        ensures moment { self.new.moment ≡ self.old.moment }
        ensures path { self.new.path ≡ self.old.path }
    {
        self.faults = self.faults.saturating_add(1);
        Failed
    }

    // What a call on the file gave, its fault counted.
    fn counted<T>(&mut self, answer: io::Result<T>) -> Result<T, Failed>
        ensures value { IfOk result (λ value. answer ≡ Ok value) }
        ensures counts { CountsOnce self.old.faults self.new.faults result }
        ensures moment { self.new.moment ≡ self.old.moment }
        ensures path { self.new.path ≡ self.old.path }
    {
        match answer {
            Ok(value) => Ok(value),
            Err(_) => Err(self.fault()),
        }
    }

    // The same of a write or a sync, which takes two moments.
    fn passed(&mut self, answer: io::Result<()>) -> Result<(), Failed>
        ensures counts { CountsOnce self.old.faults self.new.faults result }
        ensures moment { self.new.moment ≡ two_moments_more self.old.moment }
        ensures never_falls { self.old.moment ≤ self.new.moment }
        ensures path { self.new.path ≡ self.old.path }
    {
        self.moment = self.moment.saturating_add(2);
        self.counted(answer)
    }
}

impl<R: Files<File = File> + AllocGlobal> Disk for FileDisk<R> {
    ghost trace = { λ _. None };

    ghost moment = { λ disk. disk.moment };

    ghost faults = { λ disk. disk.faults };

    fn len(&mut self) -> Result<u64, Failed>
        ensures size { Measures (⟦<FileDisk<R> as Disk>⟧.trace self.old) (⟦<FileDisk<R> as Disk>⟧.trace self.new) result }
        ensures moment { Passes (⟦<FileDisk<R> as Disk>⟧.trace self.old) (⟦<FileDisk<R> as Disk>⟧.trace self.new) (⟦<FileDisk<R> as Disk>⟧.moment self.old) (⟦<FileDisk<R> as Disk>⟧.moment self.new) }
        ensures counts { CountsOnce (⟦<FileDisk<R> as Disk>⟧.faults self.old) (⟦<FileDisk<R> as Disk>⟧.faults self.new) result }

        // The opening of the file that failed is a failed call too, and a measuring takes no moment.
        ensures no_moment { self.new.moment ≡ self.old.moment }
        ensures path { self.new.path ≡ self.old.path }
    {
        let measured = self.file.size();
        self.counted(measured)
    }

    fn read_at(&mut self, at: u64, into: &mut [u8]) -> Result<usize, Failed>
        ensures bytes { Reads (⟦<FileDisk<R> as Disk>⟧.trace self.old) (⟦<FileDisk<R> as Disk>⟧.trace self.new) at into.new result }
        ensures moment { Passes (⟦<FileDisk<R> as Disk>⟧.trace self.old) (⟦<FileDisk<R> as Disk>⟧.trace self.new) (⟦<FileDisk<R> as Disk>⟧.moment self.old) (⟦<FileDisk<R> as Disk>⟧.moment self.new) }
        ensures counts { CountsOnce (⟦<FileDisk<R> as Disk>⟧.faults self.old) (⟦<FileDisk<R> as Disk>⟧.faults self.new) result }
        ensures no_moment { self.new.moment ≡ self.old.moment }
        ensures path { self.new.path ≡ self.old.path }
    {
        let read = self.file.read_at(at, into);
        self.counted(read)
    }

    fn write_at(&mut self, at: u64, bytes: &[u8]) -> Result<(), Failed>
        ensures states { Writes (⟦<FileDisk<R> as Disk>⟧.trace self.old) (⟦<FileDisk<R> as Disk>⟧.trace self.new) at bytes.now result }
        ensures moment { Passes (⟦<FileDisk<R> as Disk>⟧.trace self.old) (⟦<FileDisk<R> as Disk>⟧.trace self.new) (⟦<FileDisk<R> as Disk>⟧.moment self.old) (⟦<FileDisk<R> as Disk>⟧.moment self.new) }
        ensures counts { CountsOnce (⟦<FileDisk<R> as Disk>⟧.faults self.old) (⟦<FileDisk<R> as Disk>⟧.faults self.new) result }

        // A write takes its two moments also where it failed.
        ensures two_moments { self.new.moment ≡ two_moments_more self.old.moment }
        ensures path { self.new.path ≡ self.old.path }
    {
        let written = self.file.write_at(at, bytes);
        self.passed(written)
    }

    fn sync(&mut self) -> Result<(), Failed>
        ensures states { Syncs (⟦<FileDisk<R> as Disk>⟧.trace self.old) (⟦<FileDisk<R> as Disk>⟧.trace self.new) result }
        ensures moment { Passes (⟦<FileDisk<R> as Disk>⟧.trace self.old) (⟦<FileDisk<R> as Disk>⟧.trace self.new) (⟦<FileDisk<R> as Disk>⟧.moment self.old) (⟦<FileDisk<R> as Disk>⟧.moment self.new) }
        ensures counts { CountsOnce (⟦<FileDisk<R> as Disk>⟧.faults self.old) (⟦<FileDisk<R> as Disk>⟧.faults self.new) result }
        ensures two_moments { self.new.moment ≡ two_moments_more self.old.moment }
        ensures path { self.new.path ≡ self.old.path }
    {
        let synced = self.file.sync();
        self.passed(synced)
    }

    fn stand(&self) -> Stand
        ensures moment { result.moment ≡ ⟦<FileDisk<R> as Disk>⟧.moment self.now }
        ensures faults { result.faults ≡ ⟦<FileDisk<R> as Disk>⟧.faults self.now }
        ensures states { WhereKnown (⟦<FileDisk<R> as Disk>⟧.trace self.now) (λ states. length states ≡ result.moment + 1) }
        ensures image { WhereKnown (⟦<FileDisk<R> as Disk>⟧.trace self.now) (λ states. IsCrashImage (present states) (present states).seen) }
    {
        Stand {
            moment: self.moment,
            faults: self.faults,
        }
    }
}
