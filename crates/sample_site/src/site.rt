//! The row site itself.

ghost use Rattle.std.specs.Prelude.{◌≡◌, IfOk, Ok};
ghost use Rattle.site_file.specs.Files.{site_of_files};
ghost use Rattle.sample_site.specs.Files.{row_files};

use crate::files::row_folder;
use farm_site::Site;
use site_file::ReadSite;
use site_keys::SiteReadFault;
use std::alloc::Global;

/// The site that the files describe.
pub fn sample_site(alloc: Global) -> Result<Site, SiteReadFault>
    ensures site { IfOk result (λ site. site_of_files row_files ≡ Ok (record {
      name = site.name;
      rounding = site.rounding;
      products = site.products;
      parties = site.parties;
      tanks = site.tanks;
      lines = site.lines;
    })) }
{
    match row_folder(alloc) {
        Ok(mut folder) => Site::read(alloc, &mut folder),
        Err(_) => Err(SiteReadFault::NoMemory),
    }
}
