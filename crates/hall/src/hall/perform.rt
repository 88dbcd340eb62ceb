//! Any of the nine calls, as a value.
ghost use Rattle.model.specs.Checks.{caller};
ghost use Rattle.calls.specs.Asked.{asked, named_subject};
ghost use Rattle.hall.specs.Faults.{answer};
ghost use Rattle.hall.specs.Answers.{Called};

use super::Hall;
use crate::fault::HallFault;
use calls::Call;
use seals::book::{SealBook, SealView};

impl<B: SealBook> Hall<B> {
    /// Performs a call of any of the nine sorts.
    pub fn perform(&mut self, call: Call) -> Result<(), HallFault>
        ensures { Called B.SealView.held self.old self.new (asked call.entry) (answer (caller (asked call.entry)) (named_subject (asked call.entry)) result) }
    {
        match call {
            Call::Tick { seat, time } => self.tick(seat, time),
            Call::Enter { seat } => self.enter(seat),
            Call::Propose {
                seat,
                parent,
                places,
            } => self.propose(seat, parent, places),
            Call::Echo { seat, block } => self.echo(seat, block),
            Call::Finish { seat, block } => self.finish(seat, block),
            Call::Commit { seat, block } => self.commit(seat, block),
            Call::Deliver {
                seat,
                kind,
                signer,
                subject,
            } => self.deliver(seat, kind, signer, subject),
            Call::Forge {
                seat,
                round,
                parent,
                places,
            } => self.forge(seat, round, parent, places),
            Call::Seal {
                seat,
                kind,
                subject,
            } => self.seal(seat, kind, subject),
        }
    }
}
