//! A site of a folder's files.

ghost use Rattle.std.specs.Prelude.{◌≡◌, List, MatchResult, IfOk, Ok, Err, Some};
ghost use Rattle.toml.specs.View.{view};
ghost use Rattle.farm_base.specs.Counts.{CountsIf};
ghost use Rattle.farm_base.specs.Known.{Stays, WhereKnown};
ghost use Rattle.farm_base.specs.Steps.{IsRefusedAs};
ghost use Rattle.farm_ports.specs.Folders.{File};
ghost use Rattle.farm_site.specs.Described.{Described};
ghost use Rattle.farm_site.specs.Sites.{described};
ghost use Rattle.site_keys.specs.Faults.{IsMissing, refusal_of};
ghost use Rattle.site_keys.specs.Files.{FailsAsMissing};
ghost use Rattle.site_keys.specs.Keys.{keys_of};
ghost use Rattle.site_file.specs.Files.{site_of_files, site_of_keys, top_of_files};
ghost use Rattle.site_file.specs.Members.{IsSiteOf, IsStopped};

use farm_ports::Folder;
use farm_site::{Lines, Parties, Products, Site, Tanks};
use site_keys::{Keys, SiteReadFault, content, toml_of};
use site_lines::lines_of;
use site_toml::{format_at, name_at, parties_of, products_of, rounding_at, tanks_of};
use std::alloc::Global;
use toml::Value;

/// A site that is read from a folder. `Site` is the one that is.
pub trait ReadSite: Drop {
    // The site, as it is described.
    ghost described: { Self → Described };

    /// The site that a folder's files describe: `site.toml` and the files that it names.
    ///
    /// `Bad` is the first fault, in the order in which the files are looked at: the text of `site.toml`, its top keys,
    /// products, parties, tanks and lines; each item whole in turn, its keys and then its file. `Folder` comes only where the
    /// folder failed, as if an expected file is missing, and `NoMemory` at any time.
    fn read<F: Folder>(alloc: Global, folder: &mut F) -> Result<Self, SiteReadFault>
        ensures site { WhereKnown (F.files folder.new) (λ files. MatchResult result
            (λ site. site_of_files files ≡ Ok (described site))
            (λ fault. IsRefusedAs (refusal_of fault) (site_of_files files))) }
        ensures meaning { WhereKnown (F.files folder.new) (λ files. IfOk result (λ site. IsSiteOf files (described site))) }
        ensures missing { WhereKnown (F.files folder.new) (λ files. IsMissing (site_of_files files) → IsStopped result) }
        ensures files { Stays (F.files folder.old) (F.files folder.new) }
        ensures counts { CountsIf (result ≡ Err SiteReadFault.Folder) (F.faults folder.old) (F.faults folder.new) }

        // Of a folder that lists no failure, `Folder` says that an expected file is missing.
        ensures missing_only { F.lists_no_failure folder.old → WhereKnown (F.files folder.new) (λ files.
            result ≡ Err SiteReadFault.Folder → IsMissing (site_of_files files)) }
        ensures lists { F.lists_no_failure folder.old → F.lists_no_failure folder.new };
}

impl ReadSite for Site {
    ghost described = { described };

    fn read<F: Folder>(alloc: Global, folder: &mut F) -> Result<Site, SiteReadFault> {
        of_folder(alloc, folder)
    }
}

// The same, for whatever files the folder is known to have at the end.
#[tactic(auto, unfolding(crate::specs::Files::site_of_files))]
fn of_folder<F: Folder>(alloc: Global, folder: &mut F) -> Result<Site, SiteReadFault>
    ensures site { (files : List File) → F.files folder.new ≡ Some files → MatchResult result
        (λ site. site_of_files files ≡ Ok (described site))
        (λ fault. IsRefusedAs (refusal_of fault) (site_of_files files)) }
    ensures files { Stays (F.files folder.old) (F.files folder.new) }
    ensures counts { CountsIf (result ≡ Err SiteReadFault.Folder) (F.faults folder.old) (F.faults folder.new) }
    ensures missing_only { F.lists_no_failure folder.old →
        FailsAsMissing (F.files folder.new) result (site_of_files) }
    ensures lists { F.lists_no_failure folder.old → F.lists_no_failure folder.new }
{
    let top = top_of(alloc, folder)?;
    let keys = Keys {
        item: 0,
        table: &top,
    };
    of_keys(alloc, folder, &keys)
}

// The site of the keys of a site file.
#[tactic(auto, unfolding(crate::specs::Files::site_of_keys))]
fn of_keys<F: Folder>(alloc: Global, folder: &mut F, top: &Keys<'_>) -> Result<Site, SiteReadFault>
    ensures site { (files : List File) → F.files folder.new ≡ Some files → MatchResult result
        (λ site. site_of_keys files top.now ≡ Ok (described site))
        (λ fault. IsRefusedAs (refusal_of fault) (site_of_keys files top.now)) }
    ensures files { Stays (F.files folder.old) (F.files folder.new) }
    ensures counts { CountsIf (result ≡ Err SiteReadFault.Folder) (F.faults folder.old) (F.faults folder.new) }
    ensures missing_only { F.lists_no_failure folder.old →
        FailsAsMissing (F.files folder.new) result (λ files. site_of_keys files top.now) }
    ensures lists { F.lists_no_failure folder.old → F.lists_no_failure folder.new }
{
    let format = format_at(top)?;
    let name = name_at(alloc, top)?;
    let rounding = rounding_at(format, top)?;
    let products = products_of(alloc, folder, top)?;
    let parties = parties_of(alloc, top)?;
    let tanks = tanks_of(alloc, folder, format, &rounding, &products, top)?;
    let lines = lines_of(alloc, &tanks, top)?;
    Ok(Site {
        name,
        rounding,
        products: Products::new(products),
        parties: Parties::new(parties),
        tanks: Tanks::new(tanks),
        lines: Lines::new(lines),
    })
}

// The keys of the site file. Its text is dropped once it is read.
#[tactic(auto, unfolding(crate::specs::Files::top_of_files))]
fn top_of<F: Folder>(alloc: Global, folder: &mut F) -> Result<Value, SiteReadFault>
    ensures top { (files : List File) → F.files folder.new ≡ Some files →
        MatchResult result (λ top. top_of_files files ≡ Ok (keys_of 0 (view top))) (λ fault. IsRefusedAs (refusal_of fault) (top_of_files files)) }
    ensures files { Stays (F.files folder.old) (F.files folder.new) }
    ensures counts { CountsIf (result ≡ Err SiteReadFault.Folder) (F.faults folder.old) (F.faults folder.new) }
    ensures missing_only { F.lists_no_failure folder.old →
        FailsAsMissing (F.files folder.new) result (top_of_files) }
    ensures lists { F.lists_no_failure folder.old → F.lists_no_failure folder.new }
{
    let bytes = content(alloc, folder, 0, "site.toml")?;
    toml_of(alloc, 0, &bytes)
}
