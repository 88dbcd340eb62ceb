//! Committing a block, and with it its chain.
ghost use Rattle.std.specs.Prelude.{◌≡◌, ℕ, ◌<◌, ◌≤◌, Bool, false, List, [], ◌++◌, length, drop, Ok, Err};
ghost use Rattle.model.specs.Setup.{round_of};
ghost use Rattle.model.specs.World.{chain_by};
ghost use Rattle.model.specs.Checks.Call.{commit as Commit};
ghost use Rattle.basics.specs.Elements.{elements};
ghost use Rattle.plans.specs.Planned.{model};
ghost use Rattle.tree.specs.Blocks.{parents};
ghost use Rattle.seats.specs.Faults.{told};
ghost use Rattle.seats.specs.Sent.{sent};
ghost use Rattle.seats.specs.Seated.{seated};
ghost use Rattle.seats.specs.Desk.{bare_desk, verdict_past, Rule};
ghost use Rattle.seats.specs.declared.fault.SeatFault.TheVariants.{WrongRound};

use super::Seat;
use crate::context::Context;
use crate::fault::SeatFault;
use crate::outgoing::Outgoing;
use basics::inline_list::InlineList;
use basics::numbers::BlockNumber;
use messages::message::{Message, Share};
use tree::tree::Tree;

// adds to the list the blocks of the chain of the block, of round `to`, that are past its end: the parent's first, then the block
fn list_chain(tree: &Tree, list: &mut InlineList<u16, 8>, to: u8, block: BlockNumber)
    requires { (length (elements list.old) ≤ to) × (to ≤ 8) }
    ensures listed { elements list.new ≡ elements list.old ++ drop (length (elements list.old)) (chain_by (parents tree.now) to block.value) }
    ensures full { length (elements list.new) ≡ to }
{
    if usize::from(to) > list.len() {
        list_chain(tree, list, to - 1, tree.parent(block));
        list.push(block.value());
    }
}

impl Seat {
    /// What `commit` would answer now. A block of a round past the eighth, which no plan has, is of a wrong round.
    #[tactic(auto, unfolding(crate::specs::Searches::combined_in, tree::specs::Blocks::valid_in))]
    pub fn may_commit(&self, at: Context<'_>, block: BlockNumber) -> Result<(), SeatFault>
        ensures within { round_of (model at.entry.plan.now) block.value ≤ 8 → told at.entry.who.value block.value result ≡ verdict_past 3 (model at.entry.plan.now) (bare_desk at.entry.tree.now self.now) (Commit at.entry.who.value block.value) }
        ensures beyond { 8 < round_of (model at.entry.plan.now) block.value → result ≡ Err WrongRound }
    {
        let round = at.plan.round_of(block);
        if round > 8 || self.k_max() >= round {
            return Err(SeatFault::WrongRound);
        }
        if !at.tree.valid(at.plan, &self.pool, block) {
            return Err(SeatFault::NotValid);
        }
        if !self.is_combined(
            at.plan,
            Message::Finalization(block),
            Share::Finalization(block),
        ) {
            return Err(SeatFault::NotCombined);
        }
        Ok(())
    }

    /// Commits a block: its chain's blocks of the rounds above the highest committed one go onto the catalogue, and its finalization is
    /// broadcast.
    pub fn commit(&mut self, at: Context<'_>, block: BlockNumber) -> Result<Outgoing, SeatFault>
        ensures within { round_of (model at.entry.plan.now) block.value ≤ 8 → Rule 3 (model at.entry.plan.now) (bare_desk at.entry.tree.now self.old) (Commit at.entry.who.value block.value) (told at.entry.who.value block.value result) (sent result) (seated self.new) (λ _ _ _. false) }
        ensures beyond { 8 < round_of (model at.entry.plan.now) block.value → (result ≡ Err WrongRound) × (seated self.new ≡ seated self.old) }
        ensures pool { self.new.pool ≡ self.old.pool }
    {
        self.may_commit(at, block)?;
        let round = at.plan.round_of(block);
        list_chain(at.tree, &mut self.progress.catalogue, round, block);
        Ok(Outgoing {
            block: None,
            whole: Some(Message::Finalization(block)),
            share: None,
        })
    }
}
