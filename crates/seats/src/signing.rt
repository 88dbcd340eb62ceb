//! Signing: a seal is made, and the message that shows it.
ghost use Rattle.std.specs.Prelude.{◌≡◌, ℕ, Bool};
ghost use Rattle.messages.specs.Meaning.{share_kind, share_subject};
ghost use Rattle.seals.specs.Seals.{added};

use basics::numbers::SeatIndex;
use messages::message::{Message, Share};
use seals::book::{SealBook, SealView};

/// Seals the share for a seat, and gives the message that shows it. The root is no block to be signed: a share of it is not sealed.
pub fn sign<B: SealBook>(book: &mut B, share: Share, who: SeatIndex) -> Message
    ensures message { result ≡ Message.Signed share who }
    ensures seals { B.SealView.held book.new ≡ added (share_kind share) who.value (share_subject share) (B.SealView.held book.old) }
{
    let _ = book.seal(share.kind(), who.value(), share.subject());
    Message::Signed(share, who)
}
