//! What the files of cases have.

use crate::fault::CaseFault;
use crate::keys::{Keys, wrong_type};
use crate::text::{Text, text_at};
use std::alloc::Global;
use toml::{Table, Value};

/// The files that each site has: a list of names at the site's name.
pub type Sites = Table;

/// What is run.
#[derive(Clone, Copy)]
pub struct Listing<'a> {
    /// The files of cases, in the order in which they are run.
    pub files: &'a [Value],
    /// The sites that a case can name.
    pub sites: &'a Sites,
}

impl<'a> Listing<'a> {
    /// What the table of the listing has.
    pub fn of(alloc: Global, table: &'a Table) -> Result<Self, CaseFault> {
        let keys = Keys::of(alloc, table, &["files", "sites"], &[])?;
        match keys.table("sites")? {
            Some(sites) => Ok(Listing {
                files: keys.list("files")?,
                sites,
            }),
            None => Err(wrong_type(alloc, "sites")),
        }
    }
}

/// A case.
#[derive(Clone, Copy)]
pub struct Case<'a> {
    /// The fact that it shows.
    pub name: &'a str,
    /// Its run.
    pub run: Run<'a>,
    /// The number of bytes of each piece in which the input comes; one piece if it isn't given.
    pub piece_bytes: Option<u64>,
    /// How the folder differs from the files of its site.
    pub changes: Changes<'a>,
    /// The disk before and after the run.
    pub disk: CaseDisk<'a>,
}

impl<'a> Case<'a> {
    /// What a table `[[case]]` has.
    pub fn of(alloc: Global, value: &'a Value) -> Result<Self, CaseFault> {
        let needed = ["name", "status"];
        let optional = [
            "words",
            "input",
            "piece_bytes",
            "site",
            "files",
            "drop",
            "replace",
            "clock",
            "fails",
            "listeners",
            "links",
            "disk",
            "output",
        ];
        let keys = Keys::of_value(alloc, "case", value, &needed, &optional)?;
        Ok(Case {
            name: keys.text("name")?.unwrap_or(""),
            run: Run::read(&keys)?,
            piece_bytes: keys.natural("piece_bytes")?,
            changes: Changes {
                files: keys.table("files")?,
                drop: keys.list("drop")?,
                replace: keys.list("replace")?,
            },
            disk: CaseDisk::read(&keys)?,
        })
    }
}

/// A run, and what is expected of it.
#[derive(Clone, Copy)]
pub struct Run<'a> {
    /// The words after the program's name.
    pub words: &'a [Value],
    /// What standard input has; nothing if it isn't given.
    pub input: Option<Text<'a>>,
    /// The site whose files the folder has.
    pub site: Option<&'a str>,
    /// The moment that the clock gives, in seconds since 1970-01-01 00:00:00 UTC; 0 if it isn't given.
    pub clock: i64,
    /// The calls that fail in it.
    pub fails: FailingCalls<'a>,
    /// The listeners that it is handed, with what comes to them and what is expected of them.
    pub listeners: &'a [Value],
    /// The links that it is handed, with what they answer and what is expected of them.
    pub links: &'a [Value],
    /// The expected status; 0 if it isn't given.
    pub status: u64,
    /// The expected output; nothing if it isn't given.
    pub output: Option<Text<'a>>,
}

impl<'a> Run<'a> {
    /// What a table of `disk.before` has.
    pub fn of(alloc: Global, value: &'a Value) -> Result<Self, CaseFault> {
        let optional = [
            "input",
            "site",
            "clock",
            "fails",
            "listeners",
            "links",
            "status",
            "output",
        ];
        Run::read(&Keys::of_value(alloc, "before", value, &["words"], &optional)?)
    }

    /// What a table has at the keys of a run.
    pub fn read(keys: &Keys<'a>) -> Result<Self, CaseFault> {
        Ok(Run {
            words: keys.list("words")?,
            input: text_at(keys, "input")?,
            site: keys.text("site")?,
            clock: keys.integer("clock")?.unwrap_or(0),
            fails: FailingCalls::read(keys)?,
            listeners: keys.list("listeners")?,
            links: keys.list("links")?,
            status: keys.natural("status")?.unwrap_or(0),
            output: text_at(keys, "output")?,
        })
    }
}

/// The calls that fail in a run, by their numbers from 1.
#[derive(Clone, Copy)]
pub struct FailingCalls<'a> {
    /// The takes of the input.
    pub input: &'a [Value],
    /// The puts to the output.
    pub output: &'a [Value],
    /// The reads of the folder.
    pub folder: &'a [Value],
    /// The calls of the disk.
    pub disk: &'a [Value],
}

impl<'a> FailingCalls<'a> {
    // What the key `fails` has.
    fn read(keys: &Keys<'a>) -> Result<Self, CaseFault> {
        let fails = keys.below("fails", &[], &["input", "output", "folder", "disk"])?;
        Ok(FailingCalls {
            input: fails.list("input")?,
            output: fails.list("output")?,
            folder: fails.list("folder")?,
            disk: fails.list("disk")?,
        })
    }
}

/// How the folder of a case differs from the files of its site.
#[derive(Clone, Copy)]
pub struct Changes<'a> {
    /// Files that the folder has besides, or in place of the site's: a text at each name.
    pub files: Option<&'a Table>,
    /// Files of the site that the folder doesn't have.
    pub drop: &'a [Value],
    /// Texts in files, each occurring once, and what replaces them: file, old text, new text.
    pub replace: &'a [Value],
}

impl<'a> Changes<'a> {
    /// A folder that has the files of its site.
    pub fn none() -> Self {
        Changes {
            files: None,
            drop: &[],
            replace: &[],
        }
    }

    /// Whether the site's file with a name is dropped, or another has its place.
    pub fn covers(&self, name: &str) -> bool {
        let is_dropped = self.drop.iter().any(|value| value.as_str() == Some(name));
        let is_replaced = self.files.is_some_and(|files| files.contains_key(name));
        is_dropped || is_replaced
    }
}

/// The disk of a case, before and after the case's run.
#[derive(Clone, Copy)]
pub struct CaseDisk<'a> {
    /// Its first bytes; none if they aren't given.
    pub bytes: Option<Text<'a>>,
    /// The site whose journal it has, made by `init` before the other runs.
    pub journal: Option<&'a str>,
    /// The runs on it before the case's own, one after another.
    pub before: &'a [Value],
    /// What a crash leaves of it; what reads give if it isn't given.
    pub image: Option<Image<'a>>,
    /// What is written over that: a list of offsets, each with digits.
    pub patch: &'a [Value],
    /// How many bytes it keeps of that, from its start; all if it isn't given.
    pub cut: Option<u64>,
    /// What reads of it have to give after the case's run; it isn't compared if this isn't given.
    pub after: Option<Text<'a>>,
}

impl<'a> CaseDisk<'a> {
    // What the key `disk` has.
    fn read(keys: &Keys<'a>) -> Result<Self, CaseFault> {
        let optional = [
            "bytes", "journal", "before", "image", "patch", "cut", "after",
        ];
        let disk = keys.below("disk", &[], &optional)?;
        Ok(CaseDisk {
            bytes: text_at(&disk, "bytes")?,
            journal: disk.text("journal")?,
            before: disk.list("before")?,
            image: Image::read(&disk)?,
            patch: disk.list("patch")?,
            cut: disk.natural("cut")?,
            after: text_at(&disk, "after")?,
        })
    }
}

/// What a crash leaves of a disk.
#[derive(Clone, Copy)]
pub struct Image<'a> {
    /// The moment of the crash, from the start of the last run before the case.
    pub moment: u64,
    /// What stands where any byte may be left: `old`, `new`, or the number of a byte.
    pub fill: &'a str,
}

impl<'a> Image<'a> {
    // What the key `image` has.
    fn read(disk: &Keys<'a>) -> Result<Option<Self>, CaseFault> {
        match disk.value("image") {
            Some(value) => Ok(Some(Image::of(disk.alloc(), value)?)),
            None => Ok(None),
        }
    }

    // What the table of an image has.
    fn of(alloc: Global, value: &'a Value) -> Result<Self, CaseFault> {
        let image = Keys::of_value(alloc, "image", value, &["moment", "fill"], &[])?;
        Ok(Image {
            moment: image.natural("moment")?.unwrap_or(0),
            fill: image.text("fill")?.unwrap_or(""),
        })
    }
}
