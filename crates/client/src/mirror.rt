//! A draw of this crate's own: in every round the last seat comes first.
ghost use Rattle.std.specs.Prelude.{◌≡◌};
ghost use Rattle.client.specs.Mirrored.{mirrored, mirrored_once};

use basics::numbers::{Rank, Round, SeatIndex};
use draws::draw::Draw;
use draws::sizes::Sizes;

/// The ranks of some seats, the same in each of some rounds.
#[derive(Clone, Copy, PartialEq, Eq, Debug)]
pub struct Mirror {
    sizes: Sizes,
}

impl Mirror {
    ghost use Rattle.client.specs.Sizes.{sizes, sized};

    /// The mirror of 1 to 13 seats over 1 to 8 rounds.
    pub fn new(n: u8, rounds: u8) -> Option<Mirror>
        ensures { sizes result ≡ sized n rounds }
    {
        let sizes = Sizes::new(n, rounds).ok()?;
        Some(Mirror { sizes })
    }
}

impl Draw for Mirror {
    ghost seats = { λ d. d.sizes.seats };

    ghost rounds = { λ d. d.sizes.rounds };

    ghost rank = { λ d. mirrored d.sizes.seats };

    ghost within = { λ d. d.sizes.within };

    ghost once = { λ d k lo hi. mirrored_once d.sizes.seats k d.sizes.within.some_seat };

    fn seat_count(&self) -> u8 {
        self.sizes.seats()
    }

    fn round_count(&self) -> u8 {
        self.sizes.rounds()
    }

    fn rank_of(&self, round: Round, seat: SeatIndex) -> Option<Rank> {
        if !self.sizes.has(round, seat) {
            return None;
        }
        Rank::new(self.sizes.seats() - 1 - seat.value())
    }
}
