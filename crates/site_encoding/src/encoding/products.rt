//! The bytes of products, each with its factors, and of parties.

ghost use Rattle.std.specs.Prelude.{◌+◌, ◌*◌, ◌≤◌, ◌≡◌, All, IsTrue, length};
ghost use Rattle.std.specs.Int.{w16};
ghost use Rattle.farm_site.specs.Facts.{are_parties, are_products};
ghost use Rattle.farm_site.specs.declared.limits.TheConstants.{MOST_PARTIES, MOST_PRODUCTS};
ghost use Rattle.site_encoding.specs.Buffers.{HasRoom, IsPut};
ghost use Rattle.site_encoding.specs.Encoding.{grid_bytes, list_bytes, party_bytes, product_bytes, short_list_bytes};
ghost use Rattle.site_encoding.specs.Sizes.{IsNamedParty, IsNamedProduct, most_grid_bytes, most_party_bytes, most_product_bytes};
ghost use Rattle.farm_site.specs.Typed.{IsTypedGrid, IsTypedProduct};

use crate::encoding::encoded::{
    Encoded, Measured, len_of_each, put, put_each, put_list, put_long_list, put_short_list,
    put_text,
};
use farm_site::{Format, Party, Product};
use farm_vcf::Vcf;

impl Encoded for Product {
    ghost bytes = { λ _. product_bytes };

    ghost fits = { IsNamedProduct };

    ghost typed = { IsTypedProduct };

    #[tactic(auto, unfolding(crate::specs::Encoding::product_bytes))]
    fn put(&self, format: Format, out: &mut Vec<u8>) {
        put(out, &self.number.to_be_bytes());
        put_text(out, self.name.get());
        put_grid(format, out, &self.vcf);
    }
}

impl Measured for Product {
    ghost most = { most_product_bytes };

    #[tactic(auto, unfolding(crate::specs::Encoding::product_bytes))]
    fn len(&self, _format: Format) -> usize {
        2 + 1 + self.name.get().len() + len_of_grid(&self.vcf)
    }
}

impl Encoded for Party {
    ghost bytes = { λ _. party_bytes };

    ghost fits = { IsNamedParty };

    #[tactic(auto, unfolding(crate::specs::Encoding::party_bytes))]
    fn put(&self, _format: Format, out: &mut Vec<u8>) {
        put(out, &self.number.to_be_bytes());
        put_text(out, self.name.get());
    }
}

impl Measured for Party {
    ghost most = { most_party_bytes };

    #[tactic(auto, unfolding(crate::specs::Encoding::party_bytes))]
    fn len(&self, _format: Format) -> usize {
        2 + 1 + self.name.get().len()
    }
}

/// Puts the products of a site after their count.
pub fn put_products(format: Format, out: &mut Vec<u8>, products: &[Product])
    requires products { IsTrue (are_products products.now) }
    requires room { HasRoom out.old (short_list_bytes product_bytes products.now) }
    ensures put { IsPut out.old out.new (short_list_bytes product_bytes products.now) }
    ensures typed { All IsTypedProduct products.now }
{
    put_short_list(format, out, products);
}

/// How many bytes the products of a site have.
pub fn len_of_products(format: Format, products: &[Product]) -> usize
    requires products { IsTrue (are_products products.now) }
    ensures len { result ≡ length (short_list_bytes product_bytes products.now) }
    ensures short { result ≤ 1 + MOST_PRODUCTS * most_product_bytes }
{
    1 + len_of_each(format, products)
}

/// Puts the parties of a site after their count.
pub fn put_parties(format: Format, out: &mut Vec<u8>, parties: &[Party])
    requires parties { IsTrue (are_parties parties.now) }
    requires room { HasRoom out.old (list_bytes w16 party_bytes parties.now) }
    ensures put { IsPut out.old out.new (list_bytes w16 party_bytes parties.now) }
{
    put_list(format, out, parties);
}

/// How many bytes the parties of a site have.
pub fn len_of_parties(format: Format, parties: &[Party]) -> usize
    requires parties { IsTrue (are_parties parties.now) }
    ensures len { result ≡ length (list_bytes w16 party_bytes parties.now) }
    ensures short { result ≤ 2 + MOST_PARTIES * most_party_bytes }
{
    2 + len_of_each(format, parties)
}

// Puts densities, temperatures and factors.
#[tactic(auto, unfolding(crate::specs::Encoding::grid_bytes))]
fn put_grid(format: Format, out: &mut Vec<u8>, vcf: &Vcf)
    requires room { HasRoom out.old (grid_bytes vcf.now) }
    ensures put { IsPut out.old out.new (grid_bytes vcf.now) }
    ensures typed { IsTypedGrid vcf.now }
{
    put_long_list(format, out, vcf.densities());
    put_long_list(format, out, vcf.temperatures());
    put_each(format, out, vcf.factors());
}

// How many bytes densities, temperatures and factors have.
#[tactic(auto, unfolding(crate::specs::Encoding::grid_bytes))]
fn len_of_grid(vcf: &Vcf) -> usize
    ensures len { result ≡ length (grid_bytes vcf.now) }
    ensures short { result ≤ most_grid_bytes }
{
    8 + 2 * vcf.densities().len() + 2 * vcf.temperatures().len() + 4 * vcf.factors().len()
}
