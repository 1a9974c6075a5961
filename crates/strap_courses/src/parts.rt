//! The parts of a strapped tank: courses, deadwood and the bottom.

use farm_fixed::{Deci, Mm};

/// A course of a shell: a ring of plates.
#[derive(Clone, Copy, Debug, PartialEq, Eq)]
pub struct Course {
    /// How high it is.
    pub height: Mm,
    /// The external circumference near its lower edge, corrected to the reference temperature.
    pub lower: Deci,
    /// The external circumference near its upper edge.
    pub upper: Deci,
    /// The step-over deduction from the lower circumference.
    pub lower_off: Deci,
    /// The step-over deduction from the upper circumference.
    pub upper_off: Deci,
    /// The thickness of the plates.
    pub plate: Deci,
    /// The thickness of the paint.
    pub paint: Deci,
}

/// What stands inside a tank and takes volume from it, or adds some, between two heights.
#[derive(Clone, Copy, Debug, PartialEq, Eq)]
pub struct Deadwood {
    /// Where it begins.
    pub low: Mm,
    /// Where it ends.
    pub high: Mm,
    /// What it takes away, in litres; less than zero where it adds.
    pub litres: i64,
}
