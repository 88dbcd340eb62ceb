//! Posting: what a rule broadcasts comes into the sender's own pool and is marked as broadcast.
ghost use Rattle.std.specs.Prelude.{◌≡◌};
ghost use Rattle.messages.specs.Stored.{stored};
ghost use Rattle.seats.specs.Seated.{seated, pooled};
ghost use Rattle.seats.specs.Sent.{maybe, listed, with_all};

use super::Seat;
use crate::outgoing::Outgoing;
use messages::message::Message;
use messages::set::MessageSet;

impl Seat {
    // posts one message, if there is one
    fn post_one(&mut self, marks: &mut MessageSet, m: Option<Message>)
        ensures pool { pooled self.new ≡ with_all (maybe m) (pooled self.old) }
        ensures marks { stored marks.new ≡ with_all (maybe m) (stored marks.old) }
        ensures seat { seated self.new ≡ seated self.old }
    {
        if let Some(x) = m {
            self.receive(x);
            marks.insert(x);
        }
    }

    /// Posts what a rule broadcasts, and marks it.
    pub fn post(&mut self, outgoing: Outgoing, marks: &mut MessageSet)
        ensures pool { pooled self.new ≡ with_all (listed outgoing) (pooled self.old) }
        ensures marks { stored marks.new ≡ with_all (listed outgoing) (stored marks.old) }
        ensures seat { seated self.new ≡ seated self.old }
    {
        let Outgoing {
            block,
            whole,
            share,
        } = outgoing;
        self.post_one(marks, block);
        self.post_one(marks, whole);
        self.post_one(marks, share);
    }
}
