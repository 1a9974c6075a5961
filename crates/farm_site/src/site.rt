//! A site.

ghost use Rattle.std.specs.Prelude.{◌≡◌, ◌↔◌, map, option_map, pos, IfSome, IsNone, IsFalse, IsTrue};
ghost use Rattle.farm_fixed.specs.Range.{IsWithin};
ghost use Rattle.farm_fixed.specs.declared.limits.TheConstants.{MOST_COEFFICIENT};
ghost use Rattle.farm_rounding.specs.Table.{IsTable};
ghost use Rattle.strap_table.specs.Roofs.{IsFloatingRoof};
ghost use Rattle.farm_site.specs.Described.{product_numbered, tank_numbered};
ghost use Rattle.farm_site.specs.Facts.{are_parties, are_products, are_tanks};
ghost use Rattle.farm_site.specs.Lines.{are_lines};
ghost use Rattle.farm_site.specs.Names.{is_name};
ghost use Rattle.farm_site.specs.Numbers.{is_among};
ghost use Rattle.farm_site.specs.Products.{product_number};
ghost use Rattle.farm_site.specs.Tanks.{tank_number};

use crate::{Lines, Name, Parties, Product, Products, Tank, Tanks, item_numbered};
use farm_rounding::RoundTable;

/// A terminal's site: what it stores, for whom, in which tanks, and which gauges it reads.
#[derive(Debug, Drop)]
pub struct Site {
    /// Its name, of 1 to 32 printable ASCII characters.
    pub name: Name,
    /// How figures are rounded.
    pub rounding: RoundTable,
    /// The products, from 1 to 16, in rising order of number.
    pub products: Products,
    /// The parties, at most 256, in rising order of number.
    pub parties: Parties,
    /// The tanks, from 1 to 64, in rising order of number. Each holds a product of the site.
    pub tanks: Tanks,
    /// The gauge lines, at most 16, in the order of the site file. Each gauge is on a tank of the site, and no two are on one.
    pub lines: Lines,
    pub ghost is_named: { IsTrue (is_name name) },
    pub ghost has_rounding: { IsTable rounding },
    pub ghost has_products: { IsTrue (are_products products) },
    pub ghost has_parties: { IsTrue (are_parties parties) },
    pub ghost has_tanks: { IsTrue (are_tanks (map product_number products) tanks) },
    pub ghost has_lines: { IsTrue (are_lines (map tank_number tanks) lines) },
}

impl Site {
    /// The tank with this number. `None` exactly where the site has none.
    ///
    /// A tank of a site has what a calculation asks for, and its product is one of the site.
    pub fn tank(&self, number: u16) -> Option<&Tank>
        ensures tank { option_map (λ tank. tank.now) result ≡ tank_numbered number self.now.tanks }
        ensures number { IfSome result (λ tank. tank.now.number ≡ number) }
        ensures none { IsNone result ↔ IsFalse (is_among number (map tank_number self.now.tanks)) }
        ensures coefficient { IfSome result (λ tank. IsWithin (pos 0) MOST_COEFFICIENT tank.now.spec.shell.coefficient) }
        ensures roof { IfSome result (λ tank. IfSome tank.now.spec.roof IsFloatingRoof) }
        ensures product { IfSome result (λ tank. IsTrue (is_among tank.now.product (map product_number self.now.products))) }
    {
        item_numbered(number, self.tanks.get())
    }

    /// The product with this number. `None` exactly where the site has none.
    pub fn product(&self, number: u16) -> Option<&Product>
        ensures product { option_map (λ product. product.now) result ≡ product_numbered number self.now.products }
        ensures number { IfSome result (λ product. product.now.number ≡ number) }
        ensures none { IsNone result ↔ IsFalse (is_among number (map product_number self.now.products)) }
    {
        item_numbered(number, self.products.get())
    }
}
