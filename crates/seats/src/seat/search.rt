//! Searches among the blocks of a seat's round.
ghost use Rattle.std.specs.Prelude.{◌≡◌, ℕ, ◌<◌, Bool, ◌||◌};
ghost use Rattle.messages.specs.Meaning.{means, share_kind, share_subject};
ghost use Rattle.basics.specs.Numbers.{block_value};
ghost use Rattle.plans.specs.Planned.{model};
ghost use Rattle.seats.specs.Seated.{pooled};
ghost use Rattle.seats.specs.Searches.{better_in, best_in_rank, best_in, rank_noted, other_noted, quorum_in};

use super::Seat;
use basics::mask::Mask;
use basics::numbers::{BlockNumber, Rank};
use messages::message::{Message, Share};
use plans::plan::Plan;
use tree::tree::Tree;

impl Seat {
    // whether c is a valid block of the seat's round whose rank is below the given one and not disqualified
    #[tactic(auto, unfolding(crate::specs::Searches::better_in, tree::specs::Blocks::valid_in))]
    fn is_better(&self, plan: &Plan, tree: &Tree, rank: Rank, c: BlockNumber) -> bool
        ensures { result ≡ better_in (model plan.now) tree.now self.now rank.value c.value }
    {
        if plan.round_of(c) != self.round().value() {
            return false;
        }
        let q = plan.rank_of(c).value();
        q < rank.value() && !self.progress.disqualified.has(q) && tree.valid(plan, &self.pool, c)
    }

    // the first block that is better than the rank, of those that the holder of rank q made in the seat's round
    fn best_of_rank(&self, plan: &Plan, tree: &Tree, rank: Rank, q: Rank) -> Option<BlockNumber>
        ensures { block_value result ≡ best_in_rank (model plan.now) tree.now self.now rank.value q.value }
    {
        let maker = plan.holder(self.progress.round, q)?;
        (0..3)
            .map(|variant| plan.number(self.progress.round, maker, variant))
            .find(|c| self.is_better(plan, tree, rank, *c))
    }

    /// The first block that is better than the rank, by rank and then by number.
    pub fn best(&self, plan: &Plan, tree: &Tree, rank: Rank) -> Option<BlockNumber>
        ensures { block_value result ≡ best_in (model plan.now) tree.now self.now rank.value }
    {
        (0..rank.value()).find_map(|q| self.best_of_rank(plan, tree, rank, Rank::capped(q)))
    }

    /// Whether a block of this rank is noted.
    pub fn noted_rank(&self, plan: &Plan, rank: Rank) -> bool
        ensures { result ≡ rank_noted (model plan.now) self.now rank.value }
    {
        (0..plan.numbers()).any(|b| {
            self.progress.noted[usize::from(b)] && plan.rank_of(BlockNumber::capped(b)) == rank
        })
    }

    /// Whether another block is noted.
    pub fn noted_other(&self, plan: &Plan, block: BlockNumber) -> bool
        ensures { result ≡ other_noted (model plan.now) self.now block.value }
    {
        (0..plan.numbers()).any(|b| self.progress.noted[usize::from(b)] && b != block.value())
    }

    // whether the whole, or a quorum of the shares that make it, is in the pool
    pub(super) fn is_combined(&self, plan: &Plan, whole: Message, share: Share) -> bool
        ensures { result ≡ (pooled self.now (means whole) || quorum_in (model plan.now) (pooled self.now) (share_kind share) (share_subject share)) }
    {
        self.pool.contains(whole) || self.pool.count(share, plan.seats()) >= plan.quorum()
    }
}
