//! How a site is written as bytes. docs/formats.md has the format.

ghost use Rattle.std.specs.Prelude.{◌≡◌, ◌<◌, IfOk, OnOk, length};
ghost use Rattle.farm_site.specs.Described.{Described, IsSite};
ghost use Rattle.farm_site.specs.Sites.{described};
ghost use Rattle.site_encoding.specs.Buffers.{HasRoom, IsPut};
ghost use Rattle.site_encoding.specs.Encoding.{encoding_in, site_encoding};
ghost use Rattle.site_encoding.specs.declared.site.TheConstants.{MOST_SITE_BYTES};

use crate::encoding::{
    len_of_head, len_of_lines, len_of_parties, len_of_products, len_of_tanks, put_head, put_lines,
    put_parties, put_products, put_tanks,
};
use farm_base::NoMemory;
use farm_site::{Format, Site, format_needed};
use std::alloc::Global;

/// Each site has fewer bytes than this.
pub const MOST_SITE_BYTES: usize = 16_777_216;

/// A site that is written as bytes. `Site` is the one that is.
pub trait SiteToBytes {
    // The site, as it is described.
    ghost described: { Self → Described };

    /// The site's bytes. Their room is taken once; `NoMemory` where it can't be had.
    fn to_bytes(&self, alloc: Global) -> Result<Vec<u8>, NoMemory>
        ensures bytes { IfOk result (λ bytes. bytes.items ≡ site_encoding (described self.now)) }
        ensures short { length (site_encoding (described self.now)) < MOST_SITE_BYTES }
        ensures sound { OnOk result (IsSite (described self.now)) };
}

impl SiteToBytes for Site {
    ghost described = { described };

    #[tactic(auto, unfolding(crate::specs::Encoding::site_encoding))]
    fn to_bytes(&self, alloc: Global) -> Result<Vec<u8>, NoMemory> {
        let format = format_needed(&self.rounding, self.tanks.get());
        let mut out = Vec::with_capacity(alloc, encoded_len(format, self))?;
        put(format, self, &mut out);
        Ok(out)
    }
}

// How many bytes the site has in a format.
#[tactic(auto, unfolding(crate::specs::Encoding::encoding_in))]
fn encoded_len(format: Format, site: &Site) -> usize
    ensures len { result ≡ length (encoding_in format (described site.now)) }
    ensures short { result < MOST_SITE_BYTES }
{
    len_of_head(format, site.name.get(), &site.rounding)
        + len_of_products(format, site.products.get())
        + len_of_parties(format, site.parties.get())
        + len_of_tanks(format, site.tanks.get())
        + len_of_lines(format, site.lines.get())
}

// Puts the site's bytes in a format.
#[tactic(auto, unfolding(crate::specs::Encoding::encoding_in))]
fn put(format: Format, site: &Site, out: &mut Vec<u8>)
    requires room { HasRoom out.old (encoding_in format (described site.now)) }
    ensures put { IsPut out.old out.new (encoding_in format (described site.now)) }
    ensures sound { IsSite (described site.now) }
{
    put_head(format, out, site.name.get(), &site.rounding);
    put_products(format, out, site.products.get());
    put_parties(format, out, site.parties.get());
    put_tanks(format, out, site.tanks.get());
    put_lines(format, out, site.lines.get());
}
