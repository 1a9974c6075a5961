//! The capacity tables of a site.

ghost use Rattle.farm_history.specs.Sites.{AreComputable, AreRising};
ghost use Rattle.farm_site.specs.Sites.{described};

use farm_site::Site;

// Does nothing but read the table of each tank. Its contract is what holds of the tanks of a site: each has a capacity table and one of the
// site's products, and their numbers rise.
pub(crate) fn table_facts(site: &Site)
    ensures computable { AreComputable (described site.now) }
    ensures rising { AreRising (described site.now) }
{
    for tank in site.tanks.get() {
        tank.table.rows();
    }
}
