//! What a draw is: its seats, its rounds, and the rank of each seat in each round.
ghost use Rattle.std.specs.Prelude.{◌≡◌, ℕ, ◌≤◌};
ghost use Rattle.basics.specs.Numbers.{number_value};
ghost use Rattle.draws.specs.Ranks.{Bounds, Once, answered};

use basics::numbers::{Rank, Round, SeatIndex};

/// A draw gives each of its seats a rank in each of its rounds.
pub trait Draw {
    /// How many seats there are.
    ghost seats: { Self → ℕ };

    /// How many rounds there are.
    ghost rounds: { Self → ℕ };

    /// The rank in a round of a seat.
    ghost rank: { Self → ℕ → ℕ → ℕ };

    /// From 1 to 13 seats, and from 1 to 8 rounds.
    ghost within: { (d : Self) → Bounds (seats d) (rounds d) };

    /// In a round each rank below the number of seats occurs once.
    ghost once: { (d : Self) (k : ℕ) → 1 ≤ k → k ≤ rounds d → Once (seats d) (rank d k) };

    /// How many seats there are.
    fn seat_count(&self) -> u8
        ensures { result ≡ seats self.now };

    /// How many rounds there are.
    fn round_count(&self) -> u8
        ensures { result ≡ rounds self.now };

    /// The rank of the seat in the round; outside the draw there is none.
    fn rank_of(&self, round: Round, seat: SeatIndex) -> Option<Rank>
        ensures { number_value result ≡ answered (seats self.now) (rounds self.now) (rank self.now) round.value seat.value };
}
