//! Deliveries: a message that exists comes into an honest seat's pool.
ghost use Rattle.std.specs.Prelude.{◌≡◌, nat_le};
ghost use Rattle.std.specs.Result.{result_map_both};
ghost use Rattle.basics.specs.Count.{tally};
ghost use Rattle.model.specs.Setup.{quorum};
ghost use Rattle.model.specs.World.{exists};
ghost use Rattle.model.specs.Checks.Call.{deliver as Deliver};
ghost use Rattle.messages.specs.Meaning.{means, share_kind, share_subject};
ghost use Rattle.plans.specs.Planned.{model};
ghost use Rattle.hall.specs.Faults.{answer};
ghost use Rattle.hall.specs.Worlds.{world};
ghost use Rattle.hall.specs.Answers.{message_if, signed_if, beacon_if, share_if, Called};

use super::Hall;
use super::admit::Sort;
use crate::fault::HallFault;
use basics::numbers::{BlockNumber, SeatIndex};
use messages::message::{Message, Share};
use seals::book::{SealBook, SealView};

impl<B: SealBook> Hall<B> {
    // the share, signed by one of the seats
    fn signed(&self, share: Share, signer: u8) -> Result<Message, HallFault>
        ensures { result_map_both means (λ f. f) result ≡ signed_if (model self.now.plan) (share_kind share) signer (share_subject share) }
    {
        if signer >= self.plan.seats() {
            return Err(HallFault::OutOfRange);
        }
        Ok(Message::Signed(share, SeatIndex::capped(signer)))
    }

    // a beacon share of one of the seats for one of the rounds
    fn beacon_share(&self, signer: u8, subject: u16) -> Result<Message, HallFault>
        ensures { result_map_both means (λ f. f) result ≡ beacon_if (model self.now.plan) signer subject }
    {
        let round = self.plan_round(subject)?;
        self.signed(Share::Beacon(round), signer)
    }

    // a message of one of the kinds 1 to 5 about a block; the shares have one of the seats as signer, the others have signer 0
    fn block_message(&self, kind: u8, signer: u8, block: BlockNumber) -> Result<Message, HallFault>
        ensures { result_map_both means (λ f. f) result ≡ share_if (model self.now.plan) kind signer block.value }
    {
        match (kind, signer) {
            (1, 0) => Ok(Message::Block(block)),
            (2, _) => self.signed(Share::Notarization(block), signer),
            (3, 0) => Ok(Message::Notarization(block)),
            (4, _) => self.signed(Share::Finalization(block), signer),
            (5, 0) => Ok(Message::Finalization(block)),
            _ => Err(HallFault::OutOfRange),
        }
    }

    // the message of this kind, signer and subject, if there can be one
    pub(super) fn message_of(
        &self,
        kind: u8,
        signer: u8,
        subject: u16,
    ) -> Result<Message, HallFault>
        ensures { result_map_both means (λ f. f) result ≡ message_if (model self.now.plan) (world B.SealView.held self.now) kind signer subject }
    {
        if kind == 6 {
            return self.beacon_share(signer, subject);
        }
        if subject == 0 {
            return Err(HallFault::OutOfRange);
        }
        let block = self.known_block(subject)?;
        self.block_message(kind, signer, block)
    }

    // whether a quorum of the seats has sealed the share
    fn quorum_sealed(&self, share: Share) -> bool
        ensures { result ≡ nat_le (quorum (model self.now.plan)) (tally (λ s. B.SealView.held self.now.book (share_kind share) s (share_subject share)) (model self.now.plan).n) }
    {
        let kind = share.kind();
        let subject = share.subject();
        let sealed = (0..self.plan.seats())
            .filter(|&seat| self.book.asked(kind, seat, subject))
            .count();
        sealed >= usize::from(self.plan.quorum())
    }

    /// Whether the message exists: a block when it is made, a share when its signer has sealed it, a notarization or finalization when a
    /// quorum has sealed its shares.
    pub fn exists(&self, m: Message) -> bool
        ensures { result ≡ exists (model self.now.plan) (world B.SealView.held self.now) (means m) }
    {
        match m {
            Message::Block(block) => self.tree.is_made(block),
            Message::Signed(share, signer) => {
                self.book
                    .asked(share.kind(), signer.value(), share.subject())
            }
            Message::Notarization(block) => self.quorum_sealed(Share::Notarization(block)),
            Message::Finalization(block) => self.quorum_sealed(Share::Finalization(block)),
        }
    }

    /// Delivers a message that exists to an honest seat; twice is as once.
    pub fn deliver(&mut self, seat: u8, kind: u8, signer: u8, subject: u16) -> Result<(), HallFault>
        ensures { Called B.SealView.held self.old self.new (Deliver seat kind signer subject) (answer seat subject result) }
    {
        let who = self.seat_of(Sort::Honest, seat)?;
        let m = self.message_of(kind, signer, subject)?;
        if !self.exists(m) {
            return Err(HallFault::NoMessage);
        }
        self.seats[who.value() as usize].receive(m);
        Ok(())
    }
}
