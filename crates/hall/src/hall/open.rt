//! The opening of a hall.
ghost use Rattle.std.specs.Prelude.{◌≡◌, ◌<◌, if◌then◌else◌};
ghost use Rattle.model.specs.Setup.{honest};
ghost use Rattle.plans.specs.Planned.{model};
ghost use Rattle.hall.specs.Worlds.{world};
ghost use Rattle.hall.specs.Steps.{sharing};
ghost use Rattle.hall.specs.Answers.{Opened};

use super::Hall;
use basics::numbers::{Round, SeatIndex};
use messages::message::Share;
use messages::set::MessageSet;
use plans::plan::Plan;
use seals::book::{SealBook, SealView};
use seats::seat::Seat;
use seats::signing::sign;
use tree::tree::Tree;

impl<B: SealBook> Hall<B> {
    // an honest seat's beacon share of round 1 is sealed and posted
    fn share_first_beacon(&mut self, seat: u8)
        requires { seat < 13 }
        ensures plan { self.new.plan ≡ self.old.plan }
        ensures world { world B.SealView.held self.new ≡ (if honest (model self.old.plan) seat then sharing seat (world B.SealView.held self.old) else world B.SealView.held self.old) }
    {
        let who = SeatIndex::capped(seat);
        if !self.plan.is_honest(who) {
            return;
        }
        let share = sign(&mut self.book, Share::Beacon(Round::capped(1)), who);
        self.seats[seat as usize].receive(share);
        self.broadcast.insert(share);
    }

    /// Opens a hall with a plan, which is used up, and a seal book, which is cleared. It cannot be refused. Each honest seat waits for
    /// round 1, its beacon share of that round sealed and broadcast; nothing else is there.
    pub fn open(plan: Plan, mut book: B) -> Hall<B>
        ensures { Opened B.SealView.held plan result }
    {
        book.clear();
        let seats = [Seat::fresh(); 13];
        let count = plan.seats();
        let mut hall = Hall {
            plan,
            tree: Tree::new(),
            seats,
            broadcast: MessageSet::empty(),
            book,
        };
        for seat in 0..count {
            hall.share_first_beacon(seat);
        }
        hall
    }
}
