//! The checks that begin a call.
ghost use Rattle.std.specs.Prelude.{◌≡◌};
ghost use Rattle.std.specs.Result.{result_map_both};
ghost use Rattle.plans.specs.Planned.{model};
ghost use Rattle.hall.specs.Worlds.{world};
ghost use Rattle.hall.specs.Answers.{is_of, seat_if, block_if, round_if};

use super::Hall;
use crate::fault::HallFault;
use basics::numbers::{BlockNumber, Round, SeatIndex};
use seals::book::{SealBook, SealView};

/// The two sorts of seats.
#[derive(Clone, Copy, PartialEq, Eq)]
pub(super) enum Sort {
    Honest,
    Corrupt,
}

impl<B: SealBook> Hall<B> {
    // the seat of this number, if it is of this sort
    pub(super) fn seat_of(&self, sort: Sort, seat: u8) -> Result<SeatIndex, HallFault>
        ensures { result_map_both (λ s. s.value) (λ f. f) result ≡ seat_if (model self.now.plan) (is_of sort (model self.now.plan) seat) seat }
    {
        if seat >= self.plan.seats() {
            return Err(HallFault::NoSeat);
        }
        let index = SeatIndex::capped(seat);
        if self.plan.is_honest(index) != (sort == Sort::Honest) {
            return Err(HallFault::OtherSort);
        }
        Ok(index)
    }

    // the block of this number, if it is the root or was made
    pub(super) fn known_block(&self, block: u16) -> Result<BlockNumber, HallFault>
        ensures { result_map_both (λ b. b.value) (λ f. f) result ≡ block_if (model self.now.plan) (world B.SealView.held self.now) block }
    {
        let number = BlockNumber::capped(block);
        if block != 0 && (block >= self.plan.numbers() || !self.tree.is_made(number)) {
            return Err(HallFault::OutOfRange);
        }
        Ok(number)
    }
    // the round of this number, if the plan has it
    pub(super) fn plan_round(&self, round: u16) -> Result<Round, HallFault>
        ensures { result_map_both (λ k. k.value) (λ f. f) result ≡ round_if (model self.now.plan) round }
    {
        if !(1..=u16::from(self.plan.rounds())).contains(&round) {
            return Err(HallFault::OutOfRange);
        }
        Ok(Round::capped(round as u8))
    }
}
