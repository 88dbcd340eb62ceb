//! Sets of messages.
ghost use Rattle.std.specs.Prelude.{◌≡◌, ℕ, ◌<◌, true};
ghost use Rattle.basics.specs.Count.{tally};
ghost use Rattle.model.specs.World.{message};
ghost use Rattle.messages.specs.Meaning.{means, share_kind, share_subject};
ghost use Rattle.messages.specs.Rows.{row, subject_fits};
ghost use Rattle.messages.specs.Stored.{stored, joined, nothing};

use crate::message::{Message, Share};
use basics::mask::{self, Mask};

/// A set of messages: a row for each kind and subject, and in it a bit for each signer.
#[derive(Clone, Copy)]
pub struct MessageSet {
    rows: [u16; 1574],
}

// the row of the messages of this kind on this subject
fn row_of(kind: u8, subject: u16) -> usize
    requires { subject_fits kind subject ≡ true }
    ensures is { result ≡ row kind subject }
    ensures low { result < 1574 }
{
    (usize::from(kind) - 1) * 313 + usize::from(subject)
}

// the bit of a message in its row: its signer's, or the first where it has none
fn bit_of(m: Message) -> u8
    ensures is { result ≡ (means m).signer }
    ensures low { result < 13 }
{
    match m {
        Message::Signed(_, signer) => signer.value(),
        _ => 0,
    }
}

impl MessageSet {
    /// The set with no message.
    pub fn empty() -> MessageSet
        ensures { stored result ≡ nothing }
    {
        let rows = [0; 1574];
        MessageSet { rows }
    }

    /// Whether the message is in the set.
    #[tactic(auto, using(crate::proofs::RowLaws::message_fits), unfolding(crate::specs::Stored::in_rows))]
    pub fn contains(&self, m: Message) -> bool
        ensures { result ≡ stored self.now (means m) }
    {
        self.rows[row_of(m.kind(), m.subject())].has(bit_of(m))
    }

    /// Adds the message.
    pub fn insert(&mut self, m: Message)
        ensures { stored self.new ≡ joined (means m) (stored self.old) }
    {
        let at = row_of(m.kind(), m.subject());
        let old = self.rows[at];
        self.rows[at] = old.with(bit_of(m));
    }

    /// How many of the seats below n have signed the share, as far as the set knows.
    #[tactic(auto, using(crate::proofs::RowLaws::row_count, crate::proofs::RowLaws::share_fits))]
    pub fn count(&self, share: Share, n: u8) -> u8
        ensures { result ≡ tally (λ s. stored self.now (message (share_kind share) s (share_subject share))) n }
    {
        mask::size_below(self.rows[row_of(share.kind(), share.subject())], n)
    }
}
