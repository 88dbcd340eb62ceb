//! The draw whose ranks move on by one seat from round to round.
ghost use Rattle.std.specs.Prelude.{◌≡◌};
ghost use Rattle.draws.specs.Rotated.{rotated, rotated_once};

use crate::draw::Draw;
use crate::fault::DrawFault;
use crate::sizes::Sizes;
use basics::numbers::{Rank, Round, SeatIndex};

/// A rotation of some seats over some rounds.
#[derive(Clone, Copy, PartialEq, Eq, Debug)]
pub struct Rotation {
    sizes: Sizes,
}

impl Rotation {
    ghost use Rattle.draws.specs.Made.{rotation_means, rotation_made};

    /// The rotation of 1 to 13 seats over 1 to 8 rounds.
    pub fn new(n: u8, rounds: u8) -> Result<Rotation, DrawFault>
        ensures { rotation_means result ≡ rotation_made n rounds }
    {
        let sizes = Sizes::new(n, rounds)?;
        Ok(Rotation { sizes })
    }
}

impl Draw for Rotation {
    ghost seats = { λ d. d.sizes.seats };

    ghost rounds = { λ d. d.sizes.rounds };

    ghost rank = { λ d. rotated d.sizes.seats };

    ghost within = { λ d. d.sizes.within };

    ghost once = { λ d k lo hi. rotated_once d.sizes.seats k d.sizes.within.some_seat };

    fn seat_count(&self) -> u8 {
        self.sizes.seats()
    }

    fn round_count(&self) -> u8 {
        self.sizes.rounds()
    }

    fn rank_of(&self, round: Round, seat: SeatIndex) -> Option<Rank> {
        if !self.sizes.has(round, seat) {
            return None;
        }
        let n = self.sizes.seats();
        Rank::new((seat.value() + n - (round.value() - 1) % n) % n)
    }
}
