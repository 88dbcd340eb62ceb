//! Echoing a block.
ghost use Rattle.std.specs.Prelude.{◌≡◌, ℕ, ◌+◌, ◌<◌, ◌≤◌, Bool, true, false, List, [], ◌∷◌, if◌then◌else◌, nat_eq};
ghost use Rattle.model.specs.Setup.{maker_of, rank_of};
ghost use Rattle.model.specs.World.{block as block_message, notarization_share};
ghost use Rattle.model.specs.Checks.Call.{echo as Echo};
ghost use Rattle.model.specs.Seats.{noting, disqualifying};
ghost use Rattle.model.specs.Effects.{parent_notarization};
ghost use Rattle.plans.specs.Planned.{model};
ghost use Rattle.tree.specs.Blocks.{parents};
ghost use Rattle.seats.specs.Faults.{told};
ghost use Rattle.seats.specs.Sent.{maybe, sent};
ghost use Rattle.seats.specs.Seated.{progressed, seated};
ghost use Rattle.seats.specs.Searches.{rank_noted};
ghost use Rattle.seats.specs.Desk.{desk, bare_desk, verdict_past, sealed_with, Rule};

use super::propose::notarization_of;
use super::{Progress, Seat};
use crate::context::Context;
use crate::fault::SeatFault;
use crate::outgoing::Outgoing;
use crate::signing::sign;
use basics::mask::Mask;
use basics::numbers::{BlockNumber, Rank};
use messages::message::{Message, Share};
use seals::book::{SealBook, SealView};

// the block, where another seat made it
fn passed_block(at: Context<'_>, block: BlockNumber) -> Option<Message>
    ensures { maybe result ≡ (if nat_eq (maker_of (model at.entry.plan.now) block.value) at.entry.who.value then [] else block_message block.value ∷ []) }
{
    (at.plan.maker_of(block) != at.who).then_some(Message::Block(block))
}

// its parent's notarization, where another seat made the block
fn passed_whole(at: Context<'_>, block: BlockNumber) -> Option<Message>
    ensures { maybe result ≡ (if nat_eq (maker_of (model at.entry.plan.now) block.value) at.entry.who.value then [] else parent_notarization (parents at.entry.tree.now block.value)) }
{
    if at.plan.maker_of(block) == at.who {
        return None;
    }
    notarization_of(at.tree.parent(block))
}

impl Progress {
    // the rank is disqualified
    fn disqualify(&mut self, rank: Rank)
        ensures { progressed self.new ≡ disqualifying rank.value (progressed self.old) }
    {
        self.disqualified = self.disqualified.with(rank.value());
    }

    // the block is noted
    fn note(&mut self, block: BlockNumber)
        ensures { progressed self.new ≡ noting block.value (progressed self.old) }
    {
        self.noted[block.value() as usize] = true;
    }
}

impl Seat {
    /// What `echo` would answer now.
    #[tactic(auto, unfolding(crate::specs::Searches::best_in, tree::specs::Blocks::valid_in))]
    pub fn may_echo(&self, at: Context<'_>, block: BlockNumber) -> Result<(), SeatFault>
        ensures { told at.entry.who.value block.value result ≡ verdict_past 3 (model at.entry.plan.now) (bare_desk at.entry.tree.now self.now) (Echo at.entry.who.value block.value) }
    {
        if !self.phase().is_in_round() {
            return Err(SeatFault::Phase);
        }
        if at.plan.round_of(block) != self.round().value() {
            return Err(SeatFault::WrongRound);
        }
        let rank = at.plan.rank_of(block);
        if self.progress.noted[block.value() as usize]
            || self.progress.disqualified.has(rank.value())
        {
            return Err(SeatFault::EchoedBefore);
        }
        if !at.tree.valid(at.plan, &self.pool, block) {
            return Err(SeatFault::NotValid);
        }
        if self.progress.elapsed() < at.plan.ntry_delay(rank) {
            return Err(SeatFault::TooSoon);
        }
        match self.best(at.plan, at.tree, rank) {
            Some(better) => Err(SeatFault::Better(better)),
            None => Ok(()),
        }
    }

    // the block is noted and its share sealed; or its rank is disqualified, where a block of that rank was noted
    fn take_note<B: SealBook>(
        &mut self,
        at: Context<'_>,
        book: &mut B,
        block: BlockNumber,
    ) -> Option<Message>
        requires { 1 ≤ block.value }
        ensures share { maybe result ≡ (if rank_noted (model at.entry.plan.now) self.old (rank_of (model at.entry.plan.now) block.value) then [] else notarization_share at.entry.who.value block.value ∷ []) }
        ensures seat { seated self.new ≡ (if rank_noted (model at.entry.plan.now) self.old (rank_of (model at.entry.plan.now) block.value) then disqualifying (rank_of (model at.entry.plan.now) block.value) (seated self.old) else noting block.value (seated self.old)) }
        ensures seals { B.SealView.held book.new ≡ sealed_with (maybe result) (B.SealView.held book.old) }
        ensures pool { self.new.pool ≡ self.old.pool }
    {
        let rank = at.plan.rank_of(block);
        if self.noted_rank(at.plan, rank) {
            self.progress.disqualify(rank);
            return None;
        }
        self.progress.note(block);
        Some(sign(book, Share::Notarization(block), at.who))
    }

    /// Echoes a block of the pool: passes it on, and notes it or disqualifies its rank.
    pub fn echo<B: SealBook>(
        &mut self,
        at: Context<'_>,
        book: &mut B,
        block: BlockNumber,
    ) -> Result<Outgoing, SeatFault>
        ensures rule { Rule 3 (model at.entry.plan.now) (desk at.entry.tree.now (B.SealView.held book.old) self.old) (Echo at.entry.who.value block.value) (told at.entry.who.value block.value result) (sent result) (seated self.new) (B.SealView.held book.new) }
        ensures pool { self.new.pool ≡ self.old.pool }
    {
        self.may_echo(at, block)?;
        let passed = passed_block(at, block);
        let whole = passed_whole(at, block);
        let share = self.take_note(at, book, block);
        Ok(Outgoing {
            block: passed,
            whole,
            share,
        })
    }
}
