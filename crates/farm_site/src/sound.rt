//! Whether items may stand in a site.

ghost use Rattle.std.specs.Prelude.{◌≡◌, map, IfOk};
ghost use Rattle.std.specs.List.{list_all};
ghost use Rattle.farm_fixed.specs.Range.{is_within, is_between};
ghost use Rattle.farm_site.specs.Facts.{are_parties, are_products, are_tanks};
ghost use Rattle.farm_site.specs.Parties.{is_party};
ghost use Rattle.farm_site.specs.Products.{is_product, product_number};
ghost use Rattle.farm_site.specs.Tanks.{is_roof, is_spec, is_opening, is_tank, tank_number};
ghost use Rattle.farm_site.specs.Numbers.{rises, rises_from};
ghost use Rattle.farm_site.specs.declared.limits.TheConstants.{MOST_NUMBER};
ghost use Rattle.farm_site.specs.Lines.{are_lines};

mod gauged;

use crate::{
    MOST_LINES, MOST_PARTIES, MOST_PRODUCTS, MOST_STOCK, MOST_TANKS, Numbered, Party, Product,
    Tank, is_among, is_name,
};
use farm_base::NoMemory;
use farm_fixed::{Amount, MOST_COEFFICIENT, MOST_HEIGHT, MOST_ROOF_MASS};
use gauge_maps::LineMap;
use gauged::{all_gauged, are_gauged, are_sound_lines};
use std::alloc::Global;
use strap_table::{Roof, TankSpec};

/// Whether these may be the products of a site.
pub fn are_products(products: &[Product]) -> bool
    ensures sound { result ≡ are_products products.now }
{
    !products.is_empty()
        && products.len() <= MOST_PRODUCTS
        && are_sound_products(products)
        && rises(products)
}

/// Whether these may be the parties of a site.
pub fn are_parties(parties: &[Party]) -> bool
    ensures sound { result ≡ are_parties parties.now }
{
    parties.len() <= MOST_PARTIES && are_sound_parties(parties) && rises(parties)
}

/// Whether these may be the tanks of a site with these products.
pub fn are_tanks(products: &[Product], tanks: &[Tank]) -> bool
    ensures sound { result ≡ are_tanks (map product_number products.now) tanks.now }
{
    !tanks.is_empty()
        && tanks.len() <= MOST_TANKS
        && are_sound_tanks(products, tanks)
        && rises(tanks)
}

/// Whether these may be the gauge lines of a site with these tanks.
pub fn are_lines(alloc: Global, tanks: &[Tank], lines: &[LineMap]) -> Result<bool, NoMemory>
    ensures lines { IfOk result (λ sound. sound ≡ are_lines (map tank_number tanks.now) lines.now) }
{
    if lines.len() > MOST_LINES || !are_sound_lines(lines) {
        return Ok(false);
    }
    let gauged = all_gauged(alloc, lines)?;
    Ok(are_gauged(tanks, &gauged))
}

// Whether the numbers of items rise.
fn rises<T: Numbered>(items: &[T]) -> bool
    ensures { result ≡ rises (map T.numbered items.now) }
{
    match items {
        [] => true,
        [first, others @ ..] => rises_from(first.number(), others),
    }
}

// Whether the numbers of items rise, the first above this one.
fn rises_from<T: Numbered>(before: u16, items: &[T]) -> bool
    ensures { result ≡ rises_from before (map T.numbered items.now) }
{
    let mut last = before;
    for item in items {
        if item.number() <= last {
            return false;
        }
        last = item.number();
    }
    true
}

// Whether an item may have this number.
fn is_number(number: u16) -> bool
    ensures { result ≡ is_between 1 MOST_NUMBER number }
{
    number >= 1
}

// Whether each product is sound.
fn are_sound_products(products: &[Product]) -> bool
    ensures { result ≡ list_all is_product products.now }
{
    products.iter().all(is_product)
}

// Whether a product is sound.
fn is_product(product: &Product) -> bool
    ensures { result ≡ is_product product.now }
{
    is_number(product.number) && is_name(product.name.get())
}

// Whether each party is sound.
fn are_sound_parties(parties: &[Party]) -> bool
    ensures { result ≡ list_all is_party parties.now }
{
    parties.iter().all(is_party)
}

// Whether a party is sound.
fn is_party(party: &Party) -> bool
    ensures { result ≡ is_party party.now }
{
    is_number(party.number) && is_name(party.name.get())
}

// Whether each tank is sound, and of one of these products.
fn are_sound_tanks(products: &[Product], tanks: &[Tank]) -> bool
    ensures { result ≡ list_all (is_tank (map product_number products.now)) tanks.now }
{
    tanks.iter().all(|tank| is_tank(products, tank))
}

// Whether a tank is sound, and of one of these products.
fn is_tank(products: &[Product], tank: &Tank) -> bool
    ensures { result ≡ is_tank (map product_number products.now) tank.now }
{
    is_number(tank.number)
        && is_among(tank.product, products)
        && is_spec(&tank.spec)
        && is_opening(tank.opening)
}

// Whether what is fixed of a tank is in its ranges.
fn is_spec(spec: &TankSpec) -> bool
    ensures { result ≡ is_spec spec.now }
{
    is_within(0, MOST_COEFFICIENT, spec.shell.coefficient)
        && is_within(1, MOST_HEIGHT, spec.height.get())
        && is_roof(spec.roof)
}

// Whether a roof has a mass, and its zone isn't upside down.
fn is_roof(roof: Option<Roof>) -> bool
    ensures { result ≡ is_roof roof }
{
    match roof {
        None => true,
        Some(roof) => {
            is_within(1, MOST_ROOF_MASS, roof.mass.get()) && roof.low.get() <= roof.high.get()
        }
    }
}

// Whether an opening stock is in its range.
fn is_opening(opening: Amount) -> bool
    ensures { result ≡ is_opening opening }
{
    is_within(-MOST_STOCK, MOST_STOCK, opening.litres)
        && is_within(-MOST_STOCK, MOST_STOCK, opening.kg)
}

// Whether a number lies in a range, both ends included.
fn is_within(least: i64, most: i64, value: i64) -> bool
    ensures { result ≡ is_within least most value }
{
    least <= value && value <= most
}
