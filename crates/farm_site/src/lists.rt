//! The lists of a site. In a clause each is the list of its items.

use crate::{Party, Product, Tank};
use farm_base::Items;
use gauge_maps::LineMap;

/// The products of a site.
pub type Products = Items<Product>;

/// The parties of a site.
pub type Parties = Items<Party>;

/// The tanks of a site.
pub type Tanks = Items<Tank>;

/// The gauge lines of a site.
pub type Lines = Items<LineMap>;
