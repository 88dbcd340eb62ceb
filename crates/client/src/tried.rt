//! A hall with this crate's draw, entries and book.
ghost use Rattle.std.specs.Prelude.{◌≡◌, Err, MatchResult};
ghost use Rattle.plans.specs.Setup.{entries_taken};
ghost use Rattle.client.specs.Tried.{FirstEntry};

use crate::counted::CountedBook;
use crate::label::Label;
use crate::mirror::Mirror;
use hall::fault::HallFault;
use hall::hall::Hall;
use plans::fault::PlanFault;
use plans::plan::Plan;
use seals::book::SealBook;

/// Opens a hall with the mirror's ranks, these labels and a book that counts, and asks seat 0 to enter round 1. More than 128 labels are refused.
pub fn first_entry<B: SealBook + Drop>(
    draw: Mirror,
    labels: &[Label],
    inner: B,
) -> Result<Result<(), HallFault>, PlanFault>
    ensures { MatchResult result (λ v. FirstEntry draw.sizes.seats draw.sizes.rounds labels.now v) (λ f. entries_taken labels.now ≡ Err f) }
{
    let mut plan = Plan::new(&draw, 0, 0, 0)?;
    plan.set_entries(labels)?;
    let mut hall = Hall::open(plan, CountedBook::over(inner));
    Ok(hall.enter(0))
}
