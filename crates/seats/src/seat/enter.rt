//! Entering a round.
ghost use Rattle.std.specs.Prelude.{◌≡◌, ℕ, ◌+◌, ◌<◌, ◌≤◌, Bool, true, false, List, [], ◌∷◌, if◌then◌else◌, nat_le};
ghost use Rattle.model.specs.World.{beacon_share};
ghost use Rattle.model.specs.Checks.Call.{enter as Enter};
ghost use Rattle.model.specs.Seats.{entered};
ghost use Rattle.plans.specs.Planned.{model};
ghost use Rattle.tree.specs.declared.tree.Tree.{Tree};
ghost use Rattle.seats.specs.Faults.{told};
ghost use Rattle.seats.specs.Sent.{maybe, sent};
ghost use Rattle.seats.specs.Seated.{progressed, seated};
ghost use Rattle.seats.specs.Desk.{desk, bare_desk, verdict_past, sealed_with, Rule};

use super::{Phase, Progress, Seat};
use crate::fault::SeatFault;
use crate::outgoing::Outgoing;
use crate::signing::sign;
use basics::numbers::{Round, SeatIndex};
use messages::message::{Message, Share};
use plans::plan::Plan;
use seals::book::{SealBook, SealView};

impl Progress {
    // the round begins at the present clock, with nothing proposed, noted or disqualified
    fn begin_round(&mut self)
        ensures { progressed self.new ≡ entered (progressed self.old) }
    {
        *self = Progress {
            phase: Phase::InRound,
            start: self.clock,
            proposed: false,
            noted: [false; 313],
            disqualified: 0,
            ..*self
        };
    }
}

impl Seat {
    /// What `enter` would answer now: the seat must wait, with more beacon shares of its round than there may be corrupt seats.
    pub fn may_enter(&self, plan: &Plan, who: SeatIndex) -> Result<(), SeatFault>
        ensures { (t : Tree) → told who.value 0 result ≡ verdict_past 2 (model plan.now) (bare_desk t self.now) (Enter who.value) }
    {
        if !self.phase().is_waiting() {
            return Err(SeatFault::Phase);
        }
        if self.pool.count(Share::Beacon(self.round()), plan.seats()) <= plan.most_corrupt() {
            return Err(SeatFault::FewBeaconShares);
        }
        Ok(())
    }

    // the beacon share of the next round, sealed, if there is a next round
    fn seal_beacon<B: SealBook>(&self, plan: &Plan, book: &mut B, who: SeatIndex) -> Option<Message>
        ensures share { maybe result ≡ (if nat_le (self.now.progress.round.value + 1) (model plan.now).rounds then beacon_share who.value (self.now.progress.round.value + 1) ∷ [] else []) }
        ensures seals { B.SealView.held book.new ≡ sealed_with (maybe result) (B.SealView.held book.old) }
    {
        let next = self.round().value() + 1;
        if next > plan.rounds() {
            return None;
        }
        Some(sign(book, Share::Beacon(Round::capped(next)), who))
    }

    /// Enters the round that the seat waits for, and broadcasts its beacon share of the next one.
    pub fn enter<B: SealBook>(
        &mut self,
        plan: &Plan,
        book: &mut B,
        who: SeatIndex,
    ) -> Result<Outgoing, SeatFault>
        ensures rule { (t : Tree) → Rule 2 (model plan.now) (desk t (B.SealView.held book.old) self.old) (Enter who.value) (told who.value 0 result) (sent result) (seated self.new) (B.SealView.held book.new) }
        ensures pool { self.new.pool ≡ self.old.pool }
    {
        self.may_enter(plan, who)?;
        let share = self.seal_beacon(plan, book, who);
        self.progress.begin_round();
        Ok(Outgoing {
            block: None,
            whole: None,
            share,
        })
    }
}
