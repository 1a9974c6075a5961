//! How a site is read from its bytes. docs/formats.md has the format.

ghost use Rattle.std.specs.Prelude.{◌≡◌, IfOk, MatchResult};
ghost use Rattle.farm_site.specs.Described.{Described, IsSite};
ghost use Rattle.farm_site.specs.Sites.{described};
ghost use Rattle.site_encoding.specs.Encoding.{site_encoding};
ghost use Rattle.site_decoding.specs.ByteReaders.{Gives};
ghost use Rattle.site_decoding.specs.Sites.{OneEncoding, whole_site};
ghost use Rattle.site_decoding.specs.declared.fault.SiteBytesFault.TheVariants.{NoMemory};

use crate::decoding::{head_at, lines_at, parties_at, products_at, tanks_at};
use crate::{SiteBytesFault, decoding_laws};
use farm_site::{Lines, Parties, Products, Site, Tanks, format_needed};
use std::alloc::Global;

/// A site that is read from its bytes. `Site` is the one that is.
pub trait SiteFromBytes: Drop {
    // The site, as it is described.
    ghost described: { Self → Described };

    /// The site that these bytes are, all of them. `BadSite` exactly where they are no site's, and `NoMemory` at any time.
    fn from_bytes(alloc: Global, bytes: &[u8]) -> Result<Self, SiteBytesFault>
        ensures found { IfOk result (λ site. bytes.now ≡ site_encoding (described site)) }
        ensures sound { IfOk result (λ site. IsSite (described site)) }
        ensures only { (site : Described) → IsSite site → bytes.now ≡ site_encoding site →
            MatchResult result (λ found. described found ≡ site) (λ fault. fault ≡ NoMemory) }

        // Two sites with the same bytes are one.
        ensures one_encoding { OneEncoding };
}

impl SiteFromBytes for Site {
    ghost described = { described };

    fn from_bytes(alloc: Global, bytes: &[u8]) -> Result<Site, SiteBytesFault> {
        decoding_laws();
        whole(alloc, bytes)
    }
}

// The same, as it is read part by part.
#[tactic(auto, unfolding(crate::specs::Sites::whole_site, crate::specs::Sites::site_at, crate::specs::Sites::parts_at))]
fn whole(alloc: Global, bytes: &[u8]) -> Result<Site, SiteBytesFault>
    ensures whole { Gives (described) result (whole_site bytes.now) }
{
    decoding_laws();
    let ((format, (name, rounding)), rest) = match head_at(alloc, bytes) {
        Ok(read) => read,
        Err(fault) => return Err(fault),
    };
    let (products, rest) = products_at(alloc, format, rest)?;
    let (parties, rest) = parties_at(alloc, format, rest)?;
    let (tanks, rest) = tanks_at(alloc, format, &products, rest)?;
    let (lines, rest) = lines_at(alloc, format, &tanks, rest)?;
    if !format.is(format_needed(&rounding, &tanks)) {
        return Err(SiteBytesFault::BadSite);
    }
    if !rest.is_empty() {
        return Err(SiteBytesFault::BadSite);
    }
    Ok(Site {
        name,
        rounding,
        products: Products::new(products),
        parties: Parties::new(parties),
        tanks: Tanks::new(tanks),
        lines: Lines::new(lines),
    })
}
