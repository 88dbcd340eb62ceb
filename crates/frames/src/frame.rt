//! What a line can say.
use calls::Call;
use entries::card::Card;
use entries::slip::Slip;

/// What the first line fixes: seats, how many may be corrupt, rounds, the two numbers of the delays, and the corrupt seats by their bits.
#[derive(Clone, Copy, PartialEq, Eq, Debug)]
pub struct Setup {
    pub n: u8,
    pub t: u8,
    pub rounds: u8,
    pub d: u16,
    pub e: u16,
    pub corrupt: u16,
}

/// What the bytes of a line say.
#[derive(Clone, Copy, PartialEq, Eq, Debug)]
pub enum Frame<'a> {
    /// What a hall is set up with.
    Opening(Setup),
    /// The card of a find in a store.
    Card(Card),
    /// The slip that joins two sherds.
    Slip(Slip),
    /// The ranks of a round, seat by seat.
    Ranks(&'a [u8]),
    /// A call on the hall.
    Call(Call<'a>),
}
