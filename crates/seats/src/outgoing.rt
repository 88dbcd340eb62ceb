//! What a rule broadcasts.
use messages::message::Message;

/// The messages that a seat broadcasts, in the order of sending: a block, a notarization or finalization, a share.
/// It is not `Drop`: it can only be spent by posting it.
pub struct Outgoing {
    pub(crate) block: Option<Message>,
    pub(crate) whole: Option<Message>,
    pub(crate) share: Option<Message>,
}
