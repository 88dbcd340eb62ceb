//! What a run is told.
ghost use Rattle.std.specs.Prelude.{◌≡◌, Ok};
ghost use Rattle.plans.specs.Planned.{model};
ghost use Rattle.page.specs.First.{first_plan};

use entries::card::Card;
use entries::entry::Entry;
use entries::slip::Slip;
pub use frames::frame::Setup;
use plans::plan::Plan;

/// The two sorts of hall: one takes cards and rotates its ranks, the other takes slips and is told its ranks.
#[derive(Clone, Copy, PartialEq, Eq, Debug)]
pub enum Sort {
    Cards,
    Slips,
}

/// The first line and the plan that it makes, with the ranks of the rotation.
#[derive(Drop)]
pub struct Start {
    pub setup: Setup,
    pub plan: Plan,
    ghost made: { first_plan setup ≡ Ok (model plan) },
}

/// An entry of the table, of either sort of hall.
#[derive(Clone, Copy, PartialEq, Eq, Debug)]
pub enum PageEntry {
    Card(Card),
    Slip(Slip),
}

/// What a line is in the place of an entry line.
#[derive(Clone, Copy, PartialEq, Eq, Debug)]
pub enum Place {
    Entry(PageEntry),
    Closes,
    Misplaced,
}

impl Entry for PageEntry {
    ghost use Rattle.page.specs.Alike.{entries_alike};
    ghost use Rattle.std.proofs.Common.{rules};

    ghost alike = { entries_alike };

    ghost same = { Prim.search rules };

    ghost turned = { Prim.search rules };

    fn is_like(&self, other: &PageEntry) -> bool {
        match (self, other) {
            (PageEntry::Card(x), PageEntry::Card(y)) => x.is_like(y),
            (PageEntry::Slip(x), PageEntry::Slip(y)) => x.is_like(y),
            _ => false,
        }
    }
}
