//! What is fixed of a tank beside its table: its shell, its reference height and its roof.

use farm_fixed::{Dens, Kg, Mm, Shell};

/// The floating roof of a tank.
///
/// Of a capacity table there are two kinds. Most leave the roof out: they give the volume of the shell alone, and what the floating
/// roof displaces is taken off of it. Some include it: above the critical zone the displacement at a reference density is taken off
/// in their rows already, and only the difference to the displacement at the observed density is left to do.
#[derive(Clone, Copy, Debug, PartialEq, Eq)]
pub struct Roof {
    /// Its mass, which the liquid carries where the roof floats.
    pub mass: Kg,
    /// Where its critical zone begins: below, the roof stands on its legs.
    pub low: Mm,
    /// Where its critical zone ends: above, the roof floats.
    pub high: Mm,
    /// The density that the table's displacement of the roof was computed at, if the table includes it.
    pub reference: Option<Dens>,
}

/// What is fixed of a tank, but for its capacity table.
#[derive(Clone, Copy, Debug, PartialEq, Eq)]
pub struct TankSpec {
    /// What the shell does with temperature.
    pub shell: Shell,
    /// The reference height: from the datum plate up to the reference point.
    pub height: Mm,
    /// The floating roof, if the tank has one.
    pub roof: Option<Roof>,
}
