//! Parts of a site, and what is read of each.

use farm_site::{Product, Site, Tank};
use gauge_maps::GaugeMap;
use test_checks::Checks;

/// A part of a site, and what is wanted of it. Items are counted from 0, in the order in which the site has them.
#[derive(Clone, Copy)]
pub enum Part {
    /// The name of the site.
    Name(&'static [u8]),
    /// How many products there are.
    Products(usize),
    /// A product: its number, its name, and how many factors it has.
    Product(usize, (u16, &'static [u8], usize)),
    /// The number of the product that is found by a number, `None` where none is found.
    Numbered(u16, Option<u16>),
    /// How many parties there are.
    Parties(usize),
    /// A party: its number and its name.
    Party(usize, (u16, &'static [u8])),
    /// How many tanks there are.
    Tanks(usize),
    /// A tank: its number, its product, and the litres and kg of its opening stock.
    Tank(usize, (u16, u16, i64, i64)),
    /// What is fixed of a tank: whether it is insulated, its coefficient, reference temperature and reference height.
    Fixed(usize, (bool, i64, i64, i64)),
    /// The mass of a tank's roof and the ends of its zone.
    Roof(usize, Option<(i64, i64, i64)>),
    /// How many rows the capacity table of the tank of a number has.
    Rows(u16, usize),
    /// The litres in a row of it.
    Litres(u16, usize, i64),
    /// How many lines there are.
    Lines(usize),
    /// A line: its host and its port.
    Line(usize, (&'static [u8], u16)),
    /// The gauges of a line.
    Gauges(usize, &'static [GaugeMap]),
}

/// Parts of a site, each with its name.
pub type Parts = &'static [(&'static str, Part)];

// A product as a row has it.
fn product_at(site: &Site, index: usize) -> Option<(u16, &[u8], usize)> {
    let product = site.products.get().get(index)?;
    let factors = product.vcf.factors().len();
    Some((product.number, product.name.get(), factors))
}

// The number of a product that was found.
fn number_of(product: Option<&Product>) -> Option<u16> {
    match product {
        Some(product) => Some(product.number),
        None => None,
    }
}

// A party as a row has it.
fn party_at(site: &Site, index: usize) -> Option<(u16, &[u8])> {
    let party = site.parties.get().get(index)?;
    Some((party.number, party.name.get()))
}

// A tank as a row has it.
fn tank_at(site: &Site, index: usize) -> Option<(u16, u16, i64, i64)> {
    let tank = site.tanks.get().get(index)?;
    let opening = tank.opening;
    Some((tank.number, tank.product, opening.litres, opening.kg))
}

// What is fixed of a tank, as a row has it.
fn fixed_at(site: &Site, index: usize) -> Option<(bool, i64, i64, i64)> {
    let spec = &site.tanks.get().get(index)?.spec;
    let shell = spec.shell;
    Some((
        shell.insulated,
        shell.coefficient,
        shell.reference.get(),
        spec.height.get(),
    ))
}

// The mass of a tank's roof and the ends of its zone.
fn roof_of(tank: &Tank) -> Option<(i64, i64, i64)> {
    match tank.spec.roof {
        Some(roof) => Some((roof.mass.get(), roof.low.get(), roof.high.get())),
        None => None,
    }
}

// The roof of a tank, as a row has it.
fn roof_at(site: &Site, index: usize) -> Option<Option<(i64, i64, i64)>> {
    let tank = site.tanks.get().get(index)?;
    Some(roof_of(tank))
}

// The capacity table of the tank of a number, no rows where the site has no such tank.
fn rows_of(site: &Site, number: u16) -> &[i64] {
    match site.tank(number) {
        Some(tank) => tank.table.rows(),
        None => &[],
    }
}

// A line as a row has it.
fn line_at(site: &Site, index: usize) -> Option<(&[u8], u16)> {
    let line = site.lines.get().get(index)?;
    Some((line.host.get(), line.port))
}

// The gauges of a line.
fn gauges_at(site: &Site, index: usize) -> Option<&[GaugeMap]> {
    let line = site.lines.get().get(index)?;
    Some(line.gauges.get())
}

// One part of a site is as its row says.
fn check_part<R: Print>(checks: &mut Checks<'_, R>, site: &Site, (name, part): (&str, Part)) {
    match part {
        Part::Name(want) => checks.same_at(name, site.name.get(), want),
        Part::Products(want) => checks.same_at(name, site.products.get().len(), want),
        Part::Product(at, want) => checks.same_at(name, product_at(site, at), Some(want)),
        Part::Numbered(number, want) => {
            checks.same_at(name, number_of(site.product(number)), want);
        }
        Part::Parties(want) => checks.same_at(name, site.parties.get().len(), want),
        Part::Party(at, want) => checks.same_at(name, party_at(site, at), Some(want)),
        Part::Tanks(want) => checks.same_at(name, site.tanks.get().len(), want),
        Part::Tank(at, want) => checks.same_at(name, tank_at(site, at), Some(want)),
        Part::Fixed(at, want) => checks.same_at(name, fixed_at(site, at), Some(want)),
        Part::Roof(at, want) => checks.same_at(name, roof_at(site, at), Some(want)),
        Part::Rows(number, want) => checks.same_at(name, rows_of(site, number).len(), want),
        Part::Litres(number, row, want) => {
            checks.same_at(name, rows_of(site, number).get(row).copied(), Some(want));
        }
        Part::Lines(want) => checks.same_at(name, site.lines.get().len(), want),
        Part::Line(at, want) => checks.same_at(name, line_at(site, at), Some(want)),
        Part::Gauges(at, want) => checks.same_at(name, gauges_at(site, at), Some(want)),
    }
}

/// Parts of a site are as their rows say.
pub(crate) fn check_parts<R: Print>(checks: &mut Checks<'_, R>, site: &Site, parts: Parts) {
    for part in parts {
        check_part(checks, site, *part);
    }
}
