//! What can be read of a hall.
ghost use Rattle.std.specs.Prelude.{◌≡◌, ◌≤◌, true, false, ◌&&◌, MatchOption, nat_lt};
ghost use Rattle.model.specs.Setup.{honest};
ghost use Rattle.plans.specs.Planned.{model};
ghost use Rattle.seats.specs.Standings.{Stands};
ghost use Rattle.hall.specs.Worlds.{world};

use super::Hall;
use super::admit::Sort;
use seals::book::{SealBook, SealView};
use seats::seat::Standing;

impl<B: SealBook> Hall<B> {
    /// How many seats there are.
    pub fn seat_count(&self) -> u8
        ensures is { result ≡ (model self.now.plan).n }
        ensures few { result ≤ 13 }
    {
        self.plan.seats()
    }

    /// How an honest seat stands; of any other there is nothing to say.
    pub fn standing(&self, seat: u8) -> Option<Standing>
        ensures { MatchOption result
            ((nat_lt seat (model self.now.plan).n && honest (model self.now.plan) seat) ≡ false)
            (λ x. ((nat_lt seat (model self.now.plan).n && honest (model self.now.plan) seat) ≡ true) × Stands x ((world B.SealView.held self.now).seat seat)) }
    {
        let index = self.seat_of(Sort::Honest, seat).ok()?;
        Some(self.seats[index.value() as usize].standing())
    }
}
