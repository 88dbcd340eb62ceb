//! The nine calls of a hall.
#![tactic(auto)]

ghost use Rattle.std.specs.Prelude.{◌≡◌};
ghost use Rattle.model.specs.Checks.{caller};
ghost use Rattle.calls.specs.Asked.{asked, named_subject};

/// A call, with what it is given: places are those of a block's payload.
#[derive(Clone, Copy, PartialEq, Eq, Debug)]
pub enum Call<'a> {
    /// Sets a seat's clock.
    Tick {
        seat: u8,
        time: u32,
    },
    /// Starts the round that a seat waits for.
    Enter {
        seat: u8,
    },
    /// Makes the seat's block on a parent.
    Propose {
        seat: u8,
        parent: u16,
        places: &'a [u8],
    },
    /// Seals a block of the seat's round, or disqualifies its rank.
    Echo {
        seat: u8,
        block: u16,
    },
    /// Ends the seat's round with a notarized block.
    Finish {
        seat: u8,
        block: u16,
    },
    /// Adds the chain of a finalized block to the seat's catalogue.
    Commit {
        seat: u8,
        block: u16,
    },
    /// Puts a message that exists into the seat's pool.
    Deliver {
        seat: u8,
        kind: u8,
        signer: u8,
        subject: u16,
    },
    /// Makes a block of a corrupt seat.
    Forge {
        seat: u8,
        round: u8,
        parent: u16,
        places: &'a [u8],
    },
    /// Seals for a corrupt seat.
    Seal {
        seat: u8,
        kind: u8,
        subject: u16,
    },
}

impl<'a> Call<'a> {
    /// The seat that the call is made for.
    pub fn seat(&self) -> u8
        ensures { result ≡ caller (asked self.now) }
    {
        match self {
            Call::Tick { seat, .. }
            | Call::Enter { seat }
            | Call::Propose { seat, .. }
            | Call::Echo { seat, .. }
            | Call::Finish { seat, .. }
            | Call::Commit { seat, .. }
            | Call::Deliver { seat, .. }
            | Call::Forge { seat, .. }
            | Call::Seal { seat, .. } => *seat,
        }
    }

    /// The block, parent or message subject that the call names, or 0.
    pub fn subject(&self) -> u16
        ensures { result ≡ named_subject (asked self.now) }
    {
        match self {
            Call::Tick { .. } | Call::Enter { .. } => 0,
            Call::Propose { parent, .. } | Call::Forge { parent, .. } => *parent,
            Call::Echo { block, .. } | Call::Finish { block, .. } | Call::Commit { block, .. } => {
                *block
            }
            Call::Deliver { subject, .. } | Call::Seal { subject, .. } => *subject,
        }
    }
}
