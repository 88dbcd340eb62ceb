//! How many seats and rounds a draw has.
ghost use Rattle.std.specs.Prelude.{◌≡◌, ◌*◌, ◌≤◌, ◌↔◌, IsOk, IfOk, IfErr};
ghost use Rattle.draws.specs.Ranks.{Bounds, drawn};

use crate::fault::DrawFault;
use basics::numbers::{Round, SeatIndex};

/// From 1 to 13 seats, over 1 to 8 rounds.
#[derive(Clone, Copy, PartialEq, Eq, Debug)]
pub struct Sizes {
    seats: u8,
    rounds: u8,
    pub ghost within: { Bounds seats rounds },
}

impl Sizes {
    /// The sizes of a draw, if one can have them.
    pub fn new(seats: u8, rounds: u8) -> Result<Sizes, DrawFault>
        ensures made { IsOk result ↔ Bounds seats rounds }
        ensures same { IfOk result (λ x. (x.seats ≡ seats) × (x.rounds ≡ rounds)) }
        ensures refused { IfErr result (λ f. f ≡ DrawFault.Sizes) }
    {
        if seats < 1 || seats > 13 || rounds < 1 || rounds > 8 {
            return Err(DrawFault::Sizes);
        }
        Ok(Sizes { seats, rounds })
    }

    /// How many seats there are.
    pub fn seats(self) -> u8
        ensures { result ≡ self.seats }
    {
        self.seats
    }

    /// How many rounds there are.
    pub fn rounds(self) -> u8
        ensures { result ≡ self.rounds }
    {
        self.rounds
    }

    /// How many pairs of a round and a seat there are.
    pub fn pairs(self) -> u16
        ensures { result ≡ self.seats * self.rounds }
    {
        self.seats as u16 * self.rounds as u16
    }

    /// Whether there is this seat in this round.
    pub fn has(self, round: Round, seat: SeatIndex) -> bool
        ensures { result ≡ drawn self.seats self.rounds round.value seat.value }
    {
        seat.value() < self.seats && round.value() <= self.rounds
    }
}
