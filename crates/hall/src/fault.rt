//! Why a hall refuses a call.
ghost use Rattle.std.specs.Prelude.{◌≡◌};
ghost use Rattle.hall.specs.declared.fault.HallFault.TheVariants.{Seat};
ghost use Rattle.hall.specs.Faults.{hall_fault_number, hall_fault_layer, hall_fault_subject};

use seats::fault::SeatFault;

/// The refusals of a hall, with the seat's refusal whole inside.
#[derive(Clone, Copy, Debug, PartialEq, Eq)]
pub enum HallFault {
    /// there is no such seat
    NoSeat,
    /// the call is for the other sort of seat
    OtherSort,
    /// a kind, signer, round, place or block is outside its range or not made, or there are more than four places
    OutOfRange,
    /// a forged block has a parent of a wrong round
    WrongRound,
    /// the same was forged or sealed before
    Repeated,
    /// the seat has forged three blocks in the round
    FourthBlock,
    /// the message does not exist
    NoMessage,
    /// the seat refuses
    Seat(SeatFault),
}

// By hand: the clauses of the calls need to know which refusal a `?` makes of a seat's, which no derive says.
impl From<SeatFault> for HallFault {
    ghost from_gives = { λ f r. r ≡ Seat f };

    fn from(f: SeatFault) -> HallFault {
        HallFault::Seat(f)
    }
}

impl HallFault {
    /// The number of the refusal.
    pub fn number(self) -> u8
        ensures { result ≡ hall_fault_number self }
    {
        match self {
            HallFault::NoSeat => 8,
            HallFault::OtherSort => 9,
            HallFault::OutOfRange => 10,
            HallFault::WrongRound => 17,
            HallFault::Repeated => 16,
            HallFault::FourthBlock => 15,
            HallFault::NoMessage => 22,
            HallFault::Seat(f) => f.number(),
        }
    }

    /// The layer that refuses: 4 is a seat's, 3 the hall's.
    pub fn layer(self) -> u8
        ensures { result ≡ hall_fault_layer self }
    {
        match self {
            HallFault::Seat(_) => 4,
            _ => 3,
        }
    }

    /// What the refusal is about: the better block, else what the call named.
    pub fn subject(self, named: u16) -> u16
        ensures { result ≡ hall_fault_subject named self }
    {
        match self {
            HallFault::Seat(f) => f.subject(named),
            _ => named,
        }
    }
}
