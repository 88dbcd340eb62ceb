//! Finishing a round.
ghost use Rattle.std.specs.Prelude.{◌≡◌, ℕ, ◌+◌, ◌<◌, ◌≤◌, Bool, true, false, List, [], ◌∷◌, if◌then◌else◌};
ghost use Rattle.model.specs.World.{finalization_share};
ghost use Rattle.model.specs.Checks.Call.{finish as Finish};
ghost use Rattle.model.specs.Seats.{finished};
ghost use Rattle.plans.specs.Planned.{model};
ghost use Rattle.seats.specs.Faults.{told};
ghost use Rattle.seats.specs.Sent.{maybe, sent};
ghost use Rattle.seats.specs.Seated.{progressed, seated};
ghost use Rattle.seats.specs.Searches.{other_noted};
ghost use Rattle.seats.specs.Desk.{desk, bare_desk, verdict_past, sealed_with, Rule};

use super::{Phase, Progress, Seat};
use crate::context::Context;
use crate::fault::SeatFault;
use crate::outgoing::Outgoing;
use crate::signing::sign;
use basics::numbers::{BlockNumber, Round};
use messages::message::{Message, Share};
use plans::plan::Plan;
use seals::book::{SealBook, SealView};

impl Progress {
    // the seat waits for the next round, or is done after the last
    fn end_round(&mut self, plan: &Plan)
        ensures { progressed self.new ≡ finished (model plan.now) (progressed self.old) }
    {
        let round = self.round.value();
        if round < plan.rounds() {
            self.phase = Phase::Waiting;
            self.round = Round::capped(round + 1);
        } else {
            self.phase = Phase::Done;
        }
    }
}

impl Seat {
    /// What `finish` would answer now.
    #[tactic(auto, unfolding(crate::specs::Searches::combined_in, tree::specs::Blocks::valid_in))]
    pub fn may_finish(&self, at: Context<'_>, block: BlockNumber) -> Result<(), SeatFault>
        ensures { told at.entry.who.value block.value result ≡ verdict_past 3 (model at.entry.plan.now) (bare_desk at.entry.tree.now self.now) (Finish at.entry.who.value block.value) }
    {
        if !self.phase().is_in_round() {
            return Err(SeatFault::Phase);
        }
        if at.plan.round_of(block) != self.round().value() {
            return Err(SeatFault::WrongRound);
        }
        if !at.tree.valid(at.plan, &self.pool, block) {
            return Err(SeatFault::NotValid);
        }
        if !self.is_combined(
            at.plan,
            Message::Notarization(block),
            Share::Notarization(block),
        ) {
            return Err(SeatFault::NotCombined);
        }
        Ok(())
    }

    // the finalization share, sealed, if no other block is noted
    fn seal_final<B: SealBook>(
        &self,
        at: Context<'_>,
        book: &mut B,
        block: BlockNumber,
    ) -> Option<Message>
        requires { 1 ≤ block.value }
        ensures share { maybe result ≡ (if other_noted (model at.entry.plan.now) self.now block.value then [] else finalization_share at.entry.who.value block.value ∷ []) }
        ensures seals { B.SealView.held book.new ≡ sealed_with (maybe result) (B.SealView.held book.old) }
    {
        if self.noted_other(at.plan, block) {
            return None;
        }
        Some(sign(book, Share::Finalization(block), at.who))
    }

    /// Finishes the round with a notarized block: broadcasts its notarization and, if no other block is noted, the finalization share.
    pub fn finish<B: SealBook>(
        &mut self,
        at: Context<'_>,
        book: &mut B,
        block: BlockNumber,
    ) -> Result<Outgoing, SeatFault>
        ensures rule { Rule 3 (model at.entry.plan.now) (desk at.entry.tree.now (B.SealView.held book.old) self.old) (Finish at.entry.who.value block.value) (told at.entry.who.value block.value result) (sent result) (seated self.new) (B.SealView.held book.new) }
        ensures pool { self.new.pool ≡ self.old.pool }
    {
        self.may_finish(at, block)?;
        let share = self.seal_final(at, book, block);
        self.progress.end_round(at.plan);
        Ok(Outgoing {
            block: None,
            whole: Some(Message::Notarization(block)),
            share,
        })
    }
}
