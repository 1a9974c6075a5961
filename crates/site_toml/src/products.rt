//! The products of a site.

ghost use Rattle.std.specs.Prelude.{◌≡◌, ◌≤◌, [], length, List, map, option_map, MatchResult, IfOk, IsTrue, IsFalse, Ok, Err, Some, IfErr};
ghost use Rattle.toml.specs.View.{view};
ghost use Rattle.farm_base.specs.Counts.{CountsIf};
ghost use Rattle.farm_base.specs.Known.{Stays};
ghost use Rattle.farm_base.specs.Steps.{IsRefusedAs};
ghost use Rattle.farm_ports.specs.Folders.{File};
ghost use Rattle.farm_vcf.specs.Faults as factors;
ghost use Rattle.farm_vcf.specs.Records.{vcf_of};
ghost use Rattle.farm_site.specs.Facts.{are_products};
ghost use Rattle.site_keys.specs.Faults.{IsNotTheFolders, refusal_of, reported};
ghost use Rattle.site_keys.specs.Files.{FailsAsMissing};
ghost use Rattle.farm_site.specs.Numbers.{are_numbered, is_among};
ghost use Rattle.site_keys.specs.Lists.{numbered_from};
ghost use Rattle.site_toml.specs.Products.{factors_fault, factors_read, product_of, products_of};
ghost use Rattle.farm_site.specs.Products.{is_product, product_number};

use crate::names::name_at;
use farm_ports::Folder;
use farm_site::{MOST_PRODUCTS, Product};
use farm_vcf::{Vcf, VcfFault};
use site_keys::{
    FACTORS, Keys, SiteReadFault, TEXT, bad, bad_at, content, list_at, own_number, put_by_number,
};
use std::alloc::Global;
use toml::Value;

/// The products, in rising order of number, each with its factor file.
#[tactic(auto, unfolding(crate::specs::Products::products_of))]
pub fn products_of<F: Folder>(
    alloc: Global,
    folder: &mut F,
    top: &Keys<'_>,
) -> Result<Vec<Product>, SiteReadFault>
    ensures products { (files : List File) → F.files folder.new ≡ Some files →
        MatchResult result (λ products. products_of files top.now ≡ Ok products.items)
        (λ fault. IsRefusedAs (refusal_of fault) (products_of files top.now)) }
    ensures sound { IfOk result (λ products. IsTrue (are_products products.items)) }
    ensures files { Stays (F.files folder.old) (F.files folder.new) }
    ensures counts { CountsIf (result ≡ Err SiteReadFault.Folder) (F.faults folder.old) (F.faults folder.new) }
    ensures missing_only { F.lists_no_failure folder.old →
        FailsAsMissing (F.files folder.new) result (λ files. products_of files top.now) }
    ensures lists { F.lists_no_failure folder.old → F.lists_no_failure folder.new }
{
    products_in(alloc, folder, list_at(top, "product", 1, MOST_PRODUCTS)?)
}

// The products of tables.
fn products_in<F: Folder>(
    alloc: Global,
    folder: &mut F,
    tables: &[Value],
) -> Result<Vec<Product>, SiteReadFault>
    requires { length tables.now ≤ MOST_PRODUCTS }
    ensures products { (files : List File) → F.files folder.new ≡ Some files →
        MatchResult result (λ products. numbered_from product_number (product_of files) 1 [] (map view tables.now) ≡ Ok products.items)
        (λ fault. IsRefusedAs (refusal_of fault) (numbered_from product_number (product_of files) 1 [] (map view tables.now))) }
    ensures count { IfOk result (λ products. length products.items ≡ length tables.now) }
    ensures sound { IfOk result (λ products. IsTrue (are_numbered product_number is_product products.items)) }
    ensures files { Stays (F.files folder.old) (F.files folder.new) }
    ensures counts { CountsIf (result ≡ Err SiteReadFault.Folder) (F.faults folder.old) (F.faults folder.new) }
    ensures missing_only { F.lists_no_failure folder.old →
        FailsAsMissing (F.files folder.new) result (λ files. numbered_from product_number (product_of files) 1 [] (map view tables.now)) }
    ensures lists { F.lists_no_failure folder.old → F.lists_no_failure folder.new }
{
    let mut products = Vec::new(alloc);
    for (index, table) in tables.iter().enumerate() {
        let keys = Keys {
            item: index as u32 + 1,
            table,
        };
        let product = product_of(alloc, folder, &products, &keys)?;
        put_by_number(&mut products, product)?;
    }
    Ok(products)
}

// The product of a table, after others.
#[tactic(auto, unfolding(crate::specs::Products::product_of))]
fn product_of<F: Folder>(
    alloc: Global,
    folder: &mut F,
    earlier: &[Product],
    keys: &Keys<'_>,
) -> Result<Product, SiteReadFault>
    ensures product { (files : List File) → F.files folder.new ≡ Some files →
        MatchResult result (λ product. product_of files earlier.now keys.now ≡ Ok product)
        (λ fault. IsRefusedAs (refusal_of fault) (product_of files earlier.now keys.now)) }
    ensures sound { IfOk result (λ product. IsTrue (is_product product)) }
    ensures fresh { IfOk result (λ product. IsFalse (is_among product.number (map product_number earlier.now))) }
    ensures files { Stays (F.files folder.old) (F.files folder.new) }
    ensures counts { CountsIf (result ≡ Err SiteReadFault.Folder) (F.faults folder.old) (F.faults folder.new) }
    ensures missing_only { F.lists_no_failure folder.old →
        FailsAsMissing (F.files folder.new) result (λ files. product_of files earlier.now keys.now) }
    ensures lists { F.lists_no_failure folder.old → F.lists_no_failure folder.new }
{
    let number = own_number(earlier, keys)?;
    let name = name_at(alloc, keys)?;
    let file = keys.text("factors")?;
    let bytes = content(alloc, folder, keys.item, file)?;
    let vcf = factors_of(alloc, keys.item, &bytes)?;
    Ok(Product { number, name, vcf })
}

// The factors of a file.
fn factors_of(alloc: Global, item: u32, bytes: &[u8]) -> Result<Vcf, SiteReadFault>
    ensures factors { MatchResult result (λ grid. factors_read item (vcf_of bytes.now) ≡ Ok grid)
        (λ fault. IsRefusedAs (reported fault) (factors_read item (vcf_of bytes.now))) }
    ensures not_the_folders { IfErr result IsNotTheFolders }
{
    match Vcf::read(alloc, bytes) {
        Ok(grid) => Ok(grid),
        Err(fault) => Err(factors_refused(item, fault)),
    }
}

// How the refusal of a factor file is reported.
fn factors_refused(item: u32, fault: VcfFault) -> SiteReadFault
    ensures fault { reported result ≡ option_map (factors_fault item) (factors.reported fault) }
    ensures not_the_folders { IsNotTheFolders result }
{
    match fault {
        VcfFault::Csv => bad(TEXT, item).into(),
        VcfFault::BadField(row) | VcfFault::NotGrid(row) => bad_at(FACTORS, item, row).into(),
        VcfFault::TooMany => bad(FACTORS, item).into(),
        VcfFault::NoMemory => SiteReadFault::NoMemory,
    }
}
