//! The items of a site: products, parties and tanks.

use crate::Name;
use farm_fixed::Amount;
use farm_vcf::Vcf;
use strap_table::{CapTable, TankSpec};

/// A product that the terminal stores.
#[derive(Debug, Drop)]
pub struct Product {
    /// Its number, from 1.
    pub number: u16,
    /// Its name, of 1 to 32 printable ASCII characters.
    pub name: Name,
    /// Its volume correction factors.
    pub vcf: Vcf,
}

/// An owner, a carrier, or another with whom oil is received and delivered.
#[derive(Debug, Drop)]
pub struct Party {
    /// Its number, from 1.
    pub number: u16,
    /// Its name, of 1 to 32 printable ASCII characters.
    pub name: Name,
}

/// A tank.
#[derive(Debug, Drop)]
pub struct Tank {
    /// Its number, from 1.
    pub number: u16,
    /// The number of the product that it holds.
    pub product: u16,
    /// Its shell, its reference height and its roof.
    pub spec: TankSpec,
    /// Its capacity table.
    pub table: CapTable,
    /// What it holds as the book begins.
    pub opening: Amount,
}
