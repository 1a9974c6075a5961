//! The tanks of a site.

ghost use Rattle.std.specs.Prelude.{◌≡◌, ◌≤◌, [], length, List, map, MatchResult, IfOk, IsTrue, IsFalse, Ok, Err, Some, IfErr};
ghost use Rattle.toml.specs.View.{view};
ghost use Rattle.farm_base.specs.Counts.{CountsIf};
ghost use Rattle.farm_base.specs.Known.{Stays};
ghost use Rattle.farm_base.specs.Steps.{IsRefusedAs};
ghost use Rattle.farm_ports.specs.Folders.{File};
ghost use Rattle.site_keys.specs.Faults.{IsNotTheFolders, refusal_of, reported};
ghost use Rattle.site_keys.specs.Files.{FailsAsMissing};
ghost use Rattle.farm_site.specs.Numbers.{are_numbered, is_among};
ghost use Rattle.site_keys.specs.Lists.{numbered_from};
ghost use Rattle.farm_site.specs.Facts.{are_tanks};
ghost use Rattle.farm_site.specs.Products.{product_number};
ghost use Rattle.site_toml.specs.Tanks.{file_key, is_strapped, opening_at, stock_at, table_in, tank_of, tanks_of};
ghost use Rattle.farm_site.specs.Tanks.{is_opening, is_stock, is_tank, tank_number};

use crate::shells::spec_at;
use farm_fixed::Amount;
use farm_ports::Folder;
use farm_rounding::RoundTable;
use farm_site::{Format, MOST_STOCK, MOST_TANKS, Product, Tank};
use site_keys::{
    FIELD, Keys, SiteFault, SiteReadFault, bad, content, list_at, own_number, put_by_number,
    reference,
};
use site_tables::{strapped_file, table_of_file};
use std::alloc::Global;
use strap_table::CapTable;
use toml::Value;

/// The tanks, in rising order of number, each with its capacity table.
#[tactic(auto, unfolding(crate::specs::Tanks::tanks_of))]
pub fn tanks_of<F: Folder>(
    alloc: Global,
    folder: &mut F,
    format: Format,
    rounding: &RoundTable,
    products: &[Product],
    top: &Keys<'_>,
) -> Result<Vec<Tank>, SiteReadFault>
    ensures tanks { (files : List File) → F.files folder.new ≡ Some files →
        MatchResult result (λ tanks. tanks_of files format rounding.now (map product_number products.now) top.now ≡ Ok tanks.items)
        (λ fault. IsRefusedAs (refusal_of fault) (tanks_of files format rounding.now (map product_number products.now) top.now)) }
    ensures sound { IfOk result (λ tanks. IsTrue (are_tanks (map product_number products.now) tanks.items)) }
    ensures files { Stays (F.files folder.old) (F.files folder.new) }
    ensures counts { CountsIf (result ≡ Err SiteReadFault.Folder) (F.faults folder.old) (F.faults folder.new) }
    ensures missing_only { F.lists_no_failure folder.old →
        FailsAsMissing (F.files folder.new) result (λ files. tanks_of files format rounding.now (map product_number products.now) top.now) }
    ensures lists { F.lists_no_failure folder.old → F.lists_no_failure folder.new }
{
    tanks_in(
        alloc,
        folder,
        format,
        rounding,
        products,
        list_at(top, "tank", 1, MOST_TANKS)?,
    )
}

// The tanks of tables.
fn tanks_in<F: Folder>(
    alloc: Global,
    folder: &mut F,
    format: Format,
    rounding: &RoundTable,
    products: &[Product],
    tables: &[Value],
) -> Result<Vec<Tank>, SiteReadFault>
    requires { length tables.now ≤ MOST_TANKS }
    ensures tanks { (files : List File) → F.files folder.new ≡ Some files →
        MatchResult result (λ tanks. numbered_from tank_number (tank_of files format rounding.now (map product_number products.now)) 1 [] (map view tables.now) ≡ Ok tanks.items)
        (λ fault. IsRefusedAs (refusal_of fault) (numbered_from tank_number (tank_of files format rounding.now (map product_number products.now)) 1 [] (map view tables.now))) }
    ensures count { IfOk result (λ tanks. length tanks.items ≡ length tables.now) }
    ensures sound { IfOk result (λ tanks. IsTrue (are_numbered tank_number (is_tank (map product_number products.now)) tanks.items)) }
    ensures files { Stays (F.files folder.old) (F.files folder.new) }
    ensures counts { CountsIf (result ≡ Err SiteReadFault.Folder) (F.faults folder.old) (F.faults folder.new) }
    ensures missing_only { F.lists_no_failure folder.old →
        FailsAsMissing (F.files folder.new) result (λ files. numbered_from tank_number (tank_of files format rounding.now (map product_number products.now)) 1 [] (map view tables.now)) }
    ensures lists { F.lists_no_failure folder.old → F.lists_no_failure folder.new }
{
    let mut tanks = Vec::new(alloc);
    for (index, table) in tables.iter().enumerate() {
        let keys = Keys {
            item: index as u32 + 1,
            table,
        };
        let tank = tank_of(alloc, folder, format, rounding, products, &tanks, &keys)?;
        put_by_number(&mut tanks, tank)?;
    }
    Ok(tanks)
}

// The tank of a table, after others.
#[tactic(auto, unfolding(crate::specs::Tanks::tank_of))]
fn tank_of<F: Folder>(
    alloc: Global,
    folder: &mut F,
    format: Format,
    rounding: &RoundTable,
    products: &[Product],
    earlier: &[Tank],
    keys: &Keys<'_>,
) -> Result<Tank, SiteReadFault>
    ensures tank { (files : List File) → F.files folder.new ≡ Some files →
        MatchResult result (λ tank. tank_of files format rounding.now (map product_number products.now) earlier.now keys.now ≡ Ok tank)
        (λ fault. IsRefusedAs (refusal_of fault) (tank_of files format rounding.now (map product_number products.now) earlier.now keys.now)) }
    ensures sound { IfOk result (λ tank. IsTrue (is_tank (map product_number products.now) tank)) }
    ensures fresh { IfOk result (λ tank. IsFalse (is_among tank.number (map tank_number earlier.now))) }
    ensures files { Stays (F.files folder.old) (F.files folder.new) }
    ensures counts { CountsIf (result ≡ Err SiteReadFault.Folder) (F.faults folder.old) (F.faults folder.new) }
    ensures missing_only { F.lists_no_failure folder.old →
        FailsAsMissing (F.files folder.new) result (λ files. tank_of files format rounding.now (map product_number products.now) earlier.now keys.now) }
    ensures lists { F.lists_no_failure folder.old → F.lists_no_failure folder.new }
{
    let number = own_number(earlier, keys)?;
    let product = reference(keys, "product", products)?;
    let spec = spec_at(format, keys)?;
    let strapped = is_strapped(keys.item, keys.has("table"), keys.has("strapping"))?;
    let file = keys.text(file_key(strapped))?;
    let opening = opening_at(keys)?;
    let bytes = content(alloc, folder, keys.item, file)?;
    let table = table_in(alloc, keys.item, rounding, strapped, &bytes)?;
    Ok(Tank {
        number,
        product,
        spec,
        table,
        opening,
    })
}

// The capacity table of a file.
fn table_in(
    alloc: Global,
    item: u32,
    rounding: &RoundTable,
    strapped: bool,
    bytes: &[u8],
) -> Result<CapTable, SiteReadFault>
    ensures table { MatchResult result (λ table. table_in item rounding.now strapped bytes.now ≡ Ok table)
        (λ fault. IsRefusedAs (reported fault) (table_in item rounding.now strapped bytes.now)) }
    ensures not_the_folders { IfErr result IsNotTheFolders }
{
    if strapped {
        strapped_file(alloc, item, rounding, bytes)
    } else {
        table_of_file(alloc, item, bytes)
    }
}

// Whether a tank is strapped, by which of its two keys of a file it has.
fn is_strapped(item: u32, table: bool, strapping: bool) -> Result<bool, SiteFault>
    ensures strapped { result ≡ is_strapped item table strapping }
{
    if table == strapping {
        return Err(bad(FIELD, item));
    }
    Ok(strapping)
}

// The key of the file of a tank.
fn file_key(strapped: bool) -> &'static str
    ensures key { result.now ≡ file_key strapped }
{
    if strapped { "strapping" } else { "table" }
}

// The opening stock.
#[tactic(auto, unfolding(crate::specs::Tanks::opening_at))]
fn opening_at(keys: &Keys<'_>) -> Result<Amount, SiteFault>
    ensures opening { result ≡ opening_at keys.now }
    ensures sound { IfOk result (λ amount. IsTrue (is_opening amount)) }
{
    let litres = stock_at(keys, "opening_litres")?;
    let kg = stock_at(keys, "opening_kg")?;
    Ok(Amount { litres, kg })
}

// A stock, in litres or kilograms.
#[tactic(auto, unfolding(crate::specs::Tanks::stock_at))]
fn stock_at(keys: &Keys<'_>, key: &str) -> Result<i64, SiteFault>
    ensures stock { result ≡ stock_at keys.now key.now }
    ensures sound { IfOk result (λ stock. IsTrue (is_stock stock)) }
{
    keys.whole(key, -MOST_STOCK, MOST_STOCK)
}
