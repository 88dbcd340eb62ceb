//! The calls of corrupt seats. They fill no pool.
ghost use Rattle.std.specs.Prelude.{◌≡◌, ◌&&◌, ◌==◌};
ghost use Rattle.model.specs.Checks.{same_list, made_in, forged_before};
ghost use Rattle.model.specs.Checks.Call.{forge as Forge, seal as Seal};
ghost use Rattle.plans.specs.Planned.{model};
ghost use Rattle.tree.specs.Payloads.{listed};
ghost use Rattle.tree.specs.Blocks.{mades, parents, payloads};
ghost use Rattle.hall.specs.Faults.{answer};
ghost use Rattle.hall.specs.Worlds.{world};
ghost use Rattle.hall.specs.Steps.{Decided};
ghost use Rattle.hall.specs.Answers.{Called};

use super::Hall;
use super::admit::Sort;
use crate::fault::HallFault;
use basics::numbers::{BlockNumber, Round, SeatIndex};
use seals::book::{SealBook, SealView};
use tree::payload::Payload;

impl<B: SealBook> Hall<B> {
    // whether the block was made, with this parent and these places
    fn is_made_with(&self, block: BlockNumber, parent: BlockNumber, payload: &Payload) -> bool
        ensures { result ≡ (mades self.now.tree block.value && (parents self.now.tree block.value == parent.value && same_list (payloads self.now.tree block.value) (listed payload.now))) }
    {
        self.tree.is_made(block)
            && self.tree.parent(block) == parent
            && self.tree.payload(block).is_same(payload)
    }

    // whether the seat has forged the same block in the round before
    fn forged_before(
        &self,
        who: SeatIndex,
        round: Round,
        parent: BlockNumber,
        payload: &Payload,
    ) -> bool
        ensures { result ≡ forged_before (model self.now.plan) (world B.SealView.held self.now) who.value round.value parent.value (listed payload.now) }
    {
        (0..3u8).any(|variant| {
            self.is_made_with(self.plan.number(round, who, variant), parent, payload)
        })
    }

    // how many blocks the seat has forged in the round
    fn forged_count(&self, who: SeatIndex, round: Round) -> u8
        ensures { result ≡ made_in (model self.now.plan) (world B.SealView.held self.now) who.value round.value }
    {
        (0..3u8)
            .filter(|&variant| self.tree.is_made(self.plan.number(round, who, variant)))
            .count() as u8
    }

    // makes the block with the next variant, if the parent is of the round below, the same was not forged before, and fewer than three were
    fn run_forge(
        &mut self,
        who: SeatIndex,
        round: Round,
        parent: BlockNumber,
        payload: Payload,
    ) -> Result<(), HallFault>
        ensures { Decided B.SealView.held 3 self.old self.new (Forge who.value round.value parent.value (listed payload)) (answer who.value parent.value result) }
    {
        if self.plan.round_of(parent) + 1 != round.value() {
            return Err(HallFault::WrongRound);
        }
        if self.forged_before(who, round, parent, &payload) {
            return Err(HallFault::Repeated);
        }
        let variant = self.forged_count(who, round);
        if variant >= 3 {
            return Err(HallFault::FourthBlock);
        }
        let block = self.plan.number(round, who, variant);
        self.tree.make(block, parent, payload);
        Ok(())
    }

    /// A corrupt seat makes a block, sound or not.
    pub fn forge(
        &mut self,
        seat: u8,
        round: u8,
        parent: u16,
        places: &[u8],
    ) -> Result<(), HallFault>
        ensures { Called B.SealView.held self.old self.new (Forge seat round parent places.now) (answer seat parent result) }
    {
        let who = self.seat_of(Sort::Corrupt, seat)?;
        let named = self.plan_round(round.into())?;
        let known = self.known_block(parent)?;
        let payload = Payload::new(places).ok_or(HallFault::OutOfRange)?;
        self.run_forge(who, named, known, payload)
    }

    /// A corrupt seat seals a share.
    pub fn seal(&mut self, seat: u8, kind: u8, subject: u16) -> Result<(), HallFault>
        ensures { Called B.SealView.held self.old self.new (Seal seat kind subject) (answer seat subject result) }
    {
        self.seat_of(Sort::Corrupt, seat)?;
        if !matches!(kind, 2 | 4 | 6) {
            return Err(HallFault::OutOfRange);
        }
        self.message_of(kind, seat, subject)?;
        if self.book.asked(kind, seat, subject) {
            return Err(HallFault::Repeated);
        }
        let _ = self.book.seal(kind, seat, subject);
        Ok(())
    }
}
