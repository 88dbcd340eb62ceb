//! The first line.
ghost use Rattle.std.specs.Prelude.{◌≡◌};
ghost use Rattle.plans.specs.Planned.{model};
ghost use Rattle.plans.specs.Setup.{modelled};
ghost use Rattle.frames.specs.Shape.{shape};
ghost use Rattle.page.specs.First.{plan_with, first_plan, judged};
ghost use Rattle.page.specs.Setups.{started};

use crate::fault::PageFault;
use crate::types::Start;
use basics::mask::Mask;
use draws::draw::Draw;
use draws::rotation::Rotation;
use frames::frame::{Frame, Setup};
use plans::fault::PlanFault;
use plans::plan::Plan;

/// The plan of a draw with what the first line says: the seats whose bits are set are named corrupt, from seat 0 up.
pub(crate) fn plan_with<D: Draw>(draw: &D, setup: Setup) -> Result<Plan, PlanFault>
    ensures { modelled result ≡ plan_with (D.Draw.seats draw.now) (D.Draw.rounds draw.now) (D.Draw.rank draw.now) setup }
{
    let mut plan = Plan::new(draw, setup.t, setup.d, setup.e)?;
    for seat in 0..16u8 {
        if setup.corrupt.has(seat) {
            plan.name_corrupt(seat)?;
        }
    }
    Ok(plan)
}

/// The plan that the first line makes, with the ranks of the rotation.
fn first_plan(setup: Setup) -> Result<Plan, PlanFault>
    ensures { modelled result ≡ first_plan setup }
{
    let draw = Rotation::new(setup.n, setup.rounds)?;
    plan_with(&draw, setup)
}

/// Judges the first line.
pub(crate) fn judge(frame: Option<Frame>) -> Result<Start, PageFault>
    ensures { started result ≡ judged (shape frame.entry) }
{
    let Some(Frame::Opening(setup)) = frame else {
        return Err(PageFault::Malformed);
    };
    let plan = first_plan(setup)?;
    Ok(Start { setup, plan })
}
