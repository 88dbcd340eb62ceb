//! Walks from a block to the root: soundness and validity.
ghost use Rattle.std.specs.Prelude.{◌≡◌, ◌&&◌, MatchOption};
ghost use Rattle.model.specs.World.{block as block_message, notarization};
ghost use Rattle.messages.specs.Stored.{stored};

use super::Tree;
use crate::payload::Payload;
use basics::numbers::BlockNumber;
use messages::message::Message;
use messages::set::MessageSet;
use plans::plan::Plan;

// whether the block and its notarization are in the pool
fn has_notarized(pool: &MessageSet, block: BlockNumber) -> bool
    ensures { result ≡ (stored pool.now (block_message block.value) && stored pool.now (notarization block.value)) }
{
    pool.contains(Message::Block(block)) && pool.contains(Message::Notarization(block))
}

// the chain of a block, of this round, as a plan judges it
#[derive(Clone, Copy)]
struct Chain<'a> {
    plan: &'a Plan,
    tree: &'a Tree,
    round: u8,
    block: BlockNumber,
}

impl Chain<'_> {
    ghost use Rattle.tree.specs.Chains.{HasParent, last_places, places_on, unlike_by, sound_on, notarized_on, valid_on};

    // the chain of the parent; none of a block of round 0, the root
    fn parent(&self) -> Option<Self>
        ensures { MatchOption result (self.now.round ≡ 0) (HasParent self.now) }
    {
        let round = self.round.checked_sub(1)?;
        Some(Chain {
            round,
            block: self.tree.parent(self.block),
            ..*self
        })
    }

    // the places of the last block
    fn places(&self) -> &[u8]
        ensures { result.now ≡ last_places self.now }
    {
        self.tree.places(self.block)
    }

    // whether no place of the chain is like x
    fn is_unlike(&self, x: u8) -> bool
        ensures { result ≡ unlike_by self.now x (places_on self.now) }
    {
        let mut chain = *self;
        while let Some(parent) = chain.parent() {
            if !chain.plan.unlike(x, chain.places()) {
                return false;
            }
            chain = parent;
        }
        true
    }

    // whether the places are sound on the chain
    fn bears(&self, places: &[u8]) -> bool
        ensures { result ≡ sound_on self.now places.now }
    {
        places.iter().enumerate().all(|(i, x)| {
            *x < self.plan.entries() && self.is_unlike(*x) && self.plan.unlike(*x, &places[..i])
        })
    }

    // whether the pool says that the last block is notarized
    fn is_notarized(&self, pool: &MessageSet) -> bool
        ensures { result ≡ notarized_on self.now (stored pool.now) }
    {
        let mut chain = *self;
        while let Some(parent) = chain.parent() {
            if !has_notarized(pool, chain.block) || !parent.bears(chain.places()) {
                return false;
            }
            chain = parent;
        }
        chain.block.value() == 0
    }

    // whether the pool says that the last block is valid
    fn is_valid(&self, pool: &MessageSet) -> bool
        ensures { result ≡ valid_on self.now (stored pool.now) }
    {
        let Some(parent) = self.parent() else {
            return self.block.value() == 0;
        };
        pool.contains(Message::Block(self.block))
            && parent.is_notarized(pool)
            && parent.bears(self.places())
    }
}

impl Tree {
    ghost use Rattle.model.specs.Setup.{round_of};
    ghost use Rattle.model.specs.World.{sound};
    ghost use Rattle.plans.specs.Planned.{model};
    ghost use Rattle.tree.specs.Payloads.{listed};
    ghost use Rattle.tree.specs.Blocks.{chain_places, notarized_in, valid_in};

    // the chain of the block, of this round
    fn chain<'a>(&'a self, plan: &'a Plan, round: u8, block: BlockNumber) -> Chain<'a>
        ensures { result ≡ record { plan = plan.entry; tree = self.entry; round = round; block = block } }
    {
        Chain {
            plan,
            tree: self,
            round,
            block,
        }
    }

    /// Whether the payload is sound on the chain of the block, of this round.
    pub fn sound(&self, plan: &Plan, round: u8, block: BlockNumber, payload: &Payload) -> bool
        ensures { result ≡ sound (model plan.now) (chain_places self.now round block.value) (listed payload.now) }
    {
        self.chain(plan, round, block).bears(payload.as_slice())
    }

    /// Whether the block is notarized, as far as the pool says.
    pub fn notarized(&self, plan: &Plan, pool: &MessageSet, block: BlockNumber) -> bool
        ensures { result ≡ notarized_in (model plan.now) self.now (stored pool.now) (round_of (model plan.now) block.value) block.value }
    {
        self.chain(plan, plan.round_of(block), block)
            .is_notarized(pool)
    }

    /// Whether the block is valid, as far as the pool says.
    pub fn valid(&self, plan: &Plan, pool: &MessageSet, block: BlockNumber) -> bool
        ensures { result ≡ valid_in (model plan.now) self.now (stored pool.now) (round_of (model plan.now) block.value) block.value }
    {
        self.chain(plan, plan.round_of(block), block).is_valid(pool)
    }
}
