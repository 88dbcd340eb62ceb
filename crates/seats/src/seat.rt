//! The state of a seat.
use basics::inline_list::InlineList;
use basics::numbers::Round;
use messages::set::MessageSet;

pub mod commit;
pub mod echo;
pub mod enter;
pub mod finish;
pub mod post;
pub mod propose;
pub mod search;
pub mod state;

/// Where a seat is.
#[derive(Clone, Copy, Debug, PartialEq, Eq)]
pub enum Phase {
    /// it waits for its round
    Waiting,
    /// it is in its round
    InRound,
    /// it has finished the last round
    Done,
}

/// How a seat stands: its phase, its round, and the committed blocks, lowest round first, of which there are as many as the highest
/// committed round says.
#[derive(Clone, Copy, Debug, PartialEq, Eq)]
pub struct Standing {
    pub phase: Phase,
    pub round: Round,
    pub catalogue: InlineList<u16, 8>,
}

/// A seat: how far it has come, and its pool. Calls move the first, and what arrives or is posted comes into the second.
#[derive(Clone, Copy)]
pub struct Seat {
    progress: Progress,
    pool: MessageSet,
}

// How far a seat has come: its phase and round, its clock and the start of its round, whether it proposed, the blocks it noted and the
// ranks it disqualified in its round, and its catalogue.
#[derive(Clone, Copy)]
struct Progress {
    phase: Phase,
    round: Round,
    clock: u32,
    start: u32,
    proposed: bool,
    // by block number
    noted: [bool; 313],
    // a mask of ranks
    disqualified: u16,
    // the numbers of the committed blocks, lowest round first: there is one of each round up to the highest committed one
    catalogue: InlineList<u16, 8>,
}
