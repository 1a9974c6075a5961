//! The figures that were calculated last on each tank of a site.

ghost use Rattle.std.specs.Prelude.{◌≡◌, All, IfOk, IfSome, None};
ghost use Rattle.farm_history.specs.History.{History, empty_history, with_entry};
ghost use Rattle.farm_indexes.specs.Figured.{AreFiguresOf};
ghost use Rattle.farm_indexes.specs.Following.{MayFollow};
ghost use Rattle.farm_indexes.specs.LastFigures.{AreLastOf, ArePaired, IsCalculated};
ghost use Rattle.farm_site.specs.Sites.{described};

use crate::Figured;
use farm_base::NoMemory;
use farm_fixed::Quantities;
use farm_history::{Entry, Gauged, Named};
use farm_site::{Site, Tank};
use history_lookups::Past;
use std::alloc::{AllocError, Global};
use std::marker::Model;

/// A tank, and the figures that an entry named for it last.
#[derive(Clone, Copy, Debug, PartialEq, Eq)]
pub struct TankFigures {
    /// The tank, and what was named for it.
    pub pair: Named,
    /// The figures on it. `None` if nothing was named yet.
    pub figures: Option<Quantities>,
}

/// The last figures of the tanks of a site. In a clause it is the list of them.
///
/// A movement is mostly opened on what the movement before it was closed on, and a tank settled on what closed its last movement; so the
/// figures of an entry serve the next one.
#[derive(Drop)]
pub struct LastFigures {
    last: Vec<TankFigures>,
}

impl Model for LastFigures {
    ghost use Rattle.std.specs.Prelude.{List};
    ghost use Rattle.farm_indexes.specs.declared.last_figures.TankFigures.{TankFigures};

    ghost Value = { List TankFigures };

    ghost view = { λ figures. figures.last.items };
}

impl LastFigures {
    /// Those of a site's tanks before the first entry: none.
    pub fn new(alloc: Global, site: &Site) -> Result<LastFigures, NoMemory>
        ensures figures { IfOk result (AreLastOf (empty_history (described site.now))) }
    {
        let last = no_figures(alloc, site.tanks.get())?;
        Ok(LastFigures { last })
    }

    /// The figures on what is named for a tank. `None` if those that were named last for it are others, or there aren't any.
    #[inline(always)]
    pub fn on(&self, pair: &Named) -> Option<Quantities>
        ensures figures { (history : History) → AreLastOf history self.now → IfSome result (IsCalculated history pair.now) }
    {
        figures_on(&self.last, pair)
    }

    /// Takes an entry in that comes next after a past, on the figures that it names. It takes no memory.
    #[inline(always)]
    pub fn enter(&mut self, past: &Past<'_>, entry: &Entry, figured: &Figured)
        requires follows { MayFollow past.now entry.now }
        requires figures { AreFiguresOf past.now entry.now.cmd figured.now }
        requires last { AreLastOf past.now self.old }
        ensures last { AreLastOf (with_entry past.now entry.now) self.new }
    {
        let pairs = past.named_by(&entry.cmd);
        self.keep(&pairs.first, &figured.first);
        self.keep(&pairs.second, &figured.second);
    }

    // Keeps the figures on what is named for a tank in the place of those before, if something is named and calculated.
    #[inline(always)]
    fn keep(&mut self, pair: &Option<Named>, figures: &Option<Quantities>)
        ensures kept { (history : History) → AreLastOf history self.old → ArePaired history pair.now figures.now → AreLastOf history self.new }
    {
        let (Some(pair), Some(_)) = (pair, figures) else {
            return;
        };
        for kept in self.last.iter_mut() {
            if kept.pair.tank == pair.tank {
                *kept = TankFigures {
                    pair: *pair,
                    figures: *figures,
                };
            }
        }
    }
}

// The figures on what is named for a tank, among these.
#[inline(always)]
fn figures_on(last: &[TankFigures], pair: &Named) -> Option<Quantities>
    ensures figures { (history : History) → AreLastOf history last.now → IfSome result (IsCalculated history pair.now) }
{
    for kept in last {
        if kept.pair == *pair {
            return kept.figures;
        }
    }
    None
}

// A tank for which nothing was named.
fn none_of(tank: u16) -> TankFigures
    ensures none { result.figures ≡ None }
{
    TankFigures {
        pair: Named {
            tank,
            gauged: Gauged {
                reading: 0,
                sample: 0,
            },
        },
        figures: None,
    }
}

// Tanks for which nothing was named.
fn no_figures(alloc: Global, tanks: &[Tank]) -> Result<Vec<TankFigures>, AllocError>
    ensures none { IfOk result (λ last. All (λ kept. kept.figures ≡ None) last.items) }
{
    tanks.iter().map(|tank| none_of(tank.number)).collect(alloc)
}
