//! A run over a list of calls.
#![tactic(auto)]

ghost use Rattle.schedules.specs.Ran.{Ran, all_asked};

use calls::Call;
use hall::hall::Hall;
use seals::book::{SealBook, SealView};

/// Performs the calls one after another; refused ones leave the hall as it was.
pub fn perform_all<B: SealBook>(hall: &mut Hall<B>, calls: &[Call])
    ensures { Ran B.SealView.held hall.old hall.new (all_asked calls.now) }
{
    for call in calls {
        let _ = hall.perform(*call);
    }
}
