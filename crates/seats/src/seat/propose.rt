//! Proposing a block.
ghost use Rattle.std.specs.Prelude.{◌≡◌, ℕ, ◌+◌, ◌<◌, ◌≤◌, Bool, true, false, cond, List, [], ◌∷◌};
ghost use Rattle.model.specs.Checks.Call.{propose as Propose};
ghost use Rattle.model.specs.Effects.{parent_notarization};
ghost use Rattle.plans.specs.Planned.{model};
ghost use Rattle.tree.specs.Payloads.{listed as places_of_payload};
ghost use Rattle.seats.specs.Faults.{told};
ghost use Rattle.seats.specs.Sent.{maybe, sent};
ghost use Rattle.seats.specs.Seated.{seated};
ghost use Rattle.seats.specs.Desk.{bare_desk, verdict_past, Rule, Makes};

use super::Seat;
use crate::context::Context;
use crate::fault::SeatFault;
use crate::outgoing::Outgoing;
use basics::numbers::{BlockNumber, SeatIndex};
use messages::message::Message;
use plans::plan::Plan;
use tree::payload::Payload;
use tree::tree::Tree;

// the notarization of a parent; the root has none
pub(super) fn notarization_of(parent: BlockNumber) -> Option<Message>
    ensures { maybe result ≡ parent_notarization parent.value }
{
    (parent.value() != 0).then_some(Message::Notarization(parent))
}

impl Seat {
    /// What `propose` would answer now.
    #[tactic(auto, unfolding(tree::specs::Blocks::notarized_in, tree::specs::Blocks::chain_places))]
    pub fn may_propose(
        &self,
        at: Context<'_>,
        parent: BlockNumber,
        payload: &Payload,
    ) -> Result<(), SeatFault>
        ensures { told at.entry.who.value parent.value result ≡ verdict_past 3 (model at.entry.plan.now) (bare_desk at.entry.tree.now self.now) (Propose at.entry.who.value parent.value (places_of_payload payload.now)) }
    {
        if !self.phase().is_in_round() {
            return Err(SeatFault::Phase);
        }
        if self.progress.proposed {
            return Err(SeatFault::ProposedBefore);
        }
        let rank = at.plan.rank(self.round(), at.who);
        if self.progress.elapsed() < at.plan.prop_delay(rank) {
            return Err(SeatFault::TooSoon);
        }
        let round = at.plan.round_of(parent);
        if round + 1 != self.round().value() {
            return Err(SeatFault::WrongRound);
        }
        if !at.tree.notarized(at.plan, &self.pool, parent) {
            return Err(SeatFault::NotValid);
        }
        if !at.tree.sound(at.plan, round, parent, payload) {
            return Err(SeatFault::Unsound);
        }
        Ok(())
    }

    /// Makes the seat's block of this round, and broadcasts it with its parent's notarization.
    pub fn propose(
        &mut self,
        plan: &Plan,
        tree: &mut Tree,
        who: SeatIndex,
        parent: BlockNumber,
        payload: Payload,
    ) -> Result<Outgoing, SeatFault>
        ensures rule { Rule 3 (model plan.now) (bare_desk tree.old self.old) (Propose who.value parent.value (places_of_payload payload)) (told who.value parent.value result) (sent result) (seated self.new) (λ _ _ _. false) }
        ensures blocks { Makes 3 (model plan.now) (bare_desk tree.old self.old) (Propose who.value parent.value (places_of_payload payload)) tree.new }
        ensures pool { self.new.pool ≡ self.old.pool }
    {
        self.may_propose(Context { plan, tree, who }, parent, &payload)?;
        let block = plan.number(self.round(), who, 0);
        tree.make(block, parent, payload);
        self.progress.proposed = true;
        let whole = notarization_of(parent);
        Ok(Outgoing {
            block: Some(Message::Block(block)),
            whole,
            share: None,
        })
    }
}
