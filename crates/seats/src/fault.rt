//! Why a seat's rule refuses.
ghost use Rattle.std.specs.Prelude.{◌≡◌};
ghost use Rattle.seats.specs.Faults.{seat_fault_number, seat_fault_subject};

use basics::numbers::BlockNumber;

/// The refusals of a seat.
#[derive(Clone, Copy, Debug, PartialEq, Eq)]
pub enum SeatFault {
    /// the clock would go back, or past its last time
    Clock,
    /// the seat is not waiting, or not in a round
    Phase,
    /// too few beacon shares are in the pool
    FewBeaconShares,
    /// the delay is not over
    TooSoon,
    /// the seat has proposed in this round
    ProposedBefore,
    /// the block is noted, or its rank disqualified
    EchoedBefore,
    /// the block is of another round than it should be
    WrongRound,
    /// the block is not valid, or the parent not notarized
    NotValid,
    /// the payload is not sound
    Unsound,
    /// this block is better
    Better(BlockNumber),
    /// neither the whole nor enough shares are in the pool
    NotCombined,
}

impl SeatFault {
    /// The number of the refusal.
    pub fn number(self) -> u8
        ensures { result ≡ seat_fault_number self }
    {
        match self {
            SeatFault::Clock => 11,
            SeatFault::Phase => 12,
            SeatFault::FewBeaconShares => 13,
            SeatFault::TooSoon => 14,
            SeatFault::ProposedBefore => 15,
            SeatFault::EchoedBefore => 16,
            SeatFault::WrongRound => 17,
            SeatFault::NotValid => 18,
            SeatFault::Unsound => 19,
            SeatFault::Better(_) => 20,
            SeatFault::NotCombined => 21,
        }
    }

    /// What the refusal is about: the better block, else what the call named.
    pub fn subject(self, named: u16) -> u16
        ensures { result ≡ seat_fault_subject named self }
    {
        match self {
            SeatFault::Better(block) => block.value(),
            _ => named,
        }
    }
}
