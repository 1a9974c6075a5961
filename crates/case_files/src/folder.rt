//! The folder of a case: the files of its site, with its own files in their place, without those that it drops, and with its texts
//! replaced.

ghost use Rattle.std.specs.Prelude.{◌≡◌, ◌++◌, IfOk, IfSome};
ghost use Rattle.case_files.specs.Texts.{IsReplaced};

use crate::case::{Changes, Run, Sites};
use crate::data::read_file;
use crate::fault::CaseFault;
use crate::keys::{list_of, numbers_of, texts_of, wrong_type};
use crate::text::{Text, text_bytes};
use farm_ports::{Files, Folder};
use std::alloc::Global;
use toml::Value;

// A file by its name.
type NamedFile = (String, Vec<u8>);

/// The folder of a run: the files of its site with these changes, whose reads fail that are to fail; without a site it begins empty.
pub fn folder_of<F: Folder>(
    alloc: Global,
    data: &mut F,
    sites: &Sites,
    run: &Run<'_>,
    changes: &Changes<'_>,
) -> Result<Files, CaseFault> {
    let fails = numbers_of(alloc, "folder", run.fails.folder)?;
    let mut files = Vec::new(alloc);
    add_site(&mut files, alloc, data, sites, run.site, changes)?;
    add_files(&mut files, alloc, data, changes)?;
    replace_texts(&mut files, alloc, changes.replace)?;
    Ok(Files::new(alloc, files, fails)?)
}

// Adds the files of a site that aren't dropped and have none in their place.
fn add_site<F: Folder>(
    files: &mut Vec<NamedFile>,
    alloc: Global,
    data: &mut F,
    sites: &Sites,
    site: Option<&str>,
    changes: &Changes<'_>,
) -> Result<(), CaseFault> {
    let Some(site) = site else {
        return check_dropped(alloc, &[], changes.drop);
    };
    let names = texts_of(alloc, site, site_files(alloc, sites, site)?)?;
    check_dropped(alloc, &names, changes.drop)?;
    for name in &names {
        if !changes.covers(name) {
            let path = format!(in alloc; "{site}/{name}")?;
            add_file(files, alloc, name, read_file(alloc, data, &path)?)?;
        }
    }
    Ok(())
}

// The names of the files of a site.
fn site_files<'a>(alloc: Global, sites: &'a Sites, site: &str) -> Result<&'a [Value], CaseFault> {
    match sites.get(site) {
        Some(names) => list_of(alloc, site, names),
        None => Err(CaseFault::NoSite(String::from_str(alloc, site)?)),
    }
}

// Refuses a dropped file that the site doesn't have.
fn check_dropped(alloc: Global, names: &[String], dropped: &[Value]) -> Result<(), CaseFault> {
    for name in &texts_of(alloc, "drop", dropped)? {
        if !names.contains(name) {
            return Err(CaseFault::NoFile(String::from_str(alloc, name)?));
        }
    }
    Ok(())
}

// Adds the files that the folder has besides.
fn add_files<F: Folder>(
    files: &mut Vec<NamedFile>,
    alloc: Global,
    data: &mut F,
    changes: &Changes<'_>,
) -> Result<(), CaseFault> {
    if let Some(table) = changes.files {
        for (name, value) in table {
            let bytes = text_bytes(alloc, data, Text::of(alloc, name, value)?)?;
            add_file(files, alloc, name, bytes)?;
        }
    }
    Ok(())
}

// Adds a file at the end.
fn add_file(
    files: &mut Vec<NamedFile>,
    alloc: Global,
    name: &str,
    bytes: Vec<u8>,
) -> Result<(), CaseFault> {
    files.push((String::from_str(alloc, name)?, bytes))?;
    Ok(())
}

// Replaces texts, one after another.
fn replace_texts(
    files: &mut [NamedFile],
    alloc: Global,
    replace: &[Value],
) -> Result<(), CaseFault> {
    for value in replace {
        let texts = texts_of(alloc, "replace", list_of(alloc, "replace", value)?)?;
        match texts.as_slice() {
            [name, old, new] => replace_text(files, alloc, name, old, new)?,
            _ => return Err(wrong_type(alloc, "replace")),
        }
    }
    Ok(())
}

// Replaces a text in the file with a name.
fn replace_text(
    files: &mut [NamedFile],
    alloc: Global,
    name: &str,
    old: &str,
    new: &str,
) -> Result<(), CaseFault> {
    for (own, bytes) in files {
        if own.as_str() == name {
            *bytes = replaced(alloc, bytes, old, new)?;
            return Ok(());
        }
    }
    Err(CaseFault::NoFile(String::from_str(alloc, name)?))
}

// The bytes with a text that occurs once in them replaced.
fn replaced(alloc: Global, bytes: &[u8], old: &str, new: &str) -> Result<Vec<u8>, CaseFault>
    ensures replaced { IfOk result (λ text. IsReplaced old.now new.now bytes.now text.items) }
{
    match around(bytes, old) {
        Some((before, after)) => Ok([before, new, after].concat(alloc)?.into_bytes()),
        None => Err(CaseFault::NotOnce(String::from_str(alloc, old)?)),
    }
}

// What precedes and what follows a text that occurs once among bytes.
fn around<'a>(bytes: &'a [u8], part: &str) -> Option<(&'a str, &'a str)>
    ensures around { IfSome result (λ parts. bytes.now ≡ parts.0.now ++ part.now ++ parts.1.now) }
{
    let text = std::str::from_utf8(bytes).ok()?;
    let (before, after) = text.split_once(part)?;
    if after.contains(part) {
        return None;
    }
    Some((before, after))
}
