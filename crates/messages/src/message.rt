//! Messages, by what they say.
use basics::numbers::{BlockNumber, Round, SeatIndex};

/// What one seat signs: a block for notarization or for finalization, or a round's beacon.
#[derive(Clone, Copy, Debug, PartialEq, Eq)]
pub enum Share {
    Notarization(BlockNumber),
    Finalization(BlockNumber),
    Beacon(Round),
}

impl Share {
    ghost use Rattle.std.specs.Prelude.{◌≡◌};
    ghost use Rattle.messages.specs.Meaning.{share_kind, share_subject};

    /// The kind of the share's message: 2, 4 or 6.
    pub fn kind(self) -> u8
        ensures { result ≡ share_kind self }
    {
        match self {
            Share::Notarization(_) => 2,
            Share::Finalization(_) => 4,
            Share::Beacon(_) => 6,
        }
    }

    /// What the share is for: the number of its block, or of a beacon's round.
    pub fn subject(self) -> u16
        ensures { result ≡ share_subject self }
    {
        match self {
            Share::Notarization(block) | Share::Finalization(block) => block.value(),
            Share::Beacon(round) => u16::from(round.value()),
        }
    }
}

/// A message: a block, a share with its signer, or the whole that a quorum of shares makes.
#[derive(Clone, Copy, Debug, PartialEq, Eq)]
pub enum Message {
    Block(BlockNumber),
    Signed(Share, SeatIndex),
    Notarization(BlockNumber),
    Finalization(BlockNumber),
}

impl Message {
    ghost use Rattle.std.specs.Prelude.{◌≡◌};
    ghost use Rattle.messages.specs.Meaning.{means};

    /// The kind of the message, from 1 to 6.
    pub fn kind(self) -> u8
        ensures { result ≡ (means self).kind }
    {
        match self {
            Message::Block(_) => 1,
            Message::Signed(share, _) => share.kind(),
            Message::Notarization(_) => 3,
            Message::Finalization(_) => 5,
        }
    }

    /// What the message is about: the number of its block, or of a beacon's round.
    pub fn subject(self) -> u16
        ensures { result ≡ (means self).subject }
    {
        match self {
            Message::Block(block) => block.value(),
            Message::Signed(share, _) => share.subject(),
            Message::Notarization(block) => block.value(),
            Message::Finalization(block) => block.value(),
        }
    }
}
