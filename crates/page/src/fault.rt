//! Why a line is refused, by the layer that refuses it.
ghost use Rattle.std.specs.Prelude.{◌≡◌};
ghost use Rattle.page.specs.Refusals.{refusal, call_refusal};
ghost use Rattle.page.specs.declared.fault.PageFault.TheVariants.{Plan, Hall};

use hall::fault::HallFault;
use plans::fault::PlanFault;
use records::refusal::Refusal;

/// The refusals of a page, with those of the plan and of the hall.
#[derive(Clone, Copy)]
pub enum PageFault {
    /// the line is not a whole frame in its place
    Malformed,
    /// the plan refuses
    Plan(PlanFault),
    /// the hall refuses
    Hall(HallFault),
}

impl From<PlanFault> for PageFault {
    ghost from_gives = { λ f r. r ≡ Plan f };

    fn from(f: PlanFault) -> PageFault {
        PageFault::Plan(f)
    }
}

impl From<HallFault> for PageFault {
    ghost from_gives = { λ f r. r ≡ Hall f };

    fn from(f: HallFault) -> PageFault {
        PageFault::Hall(f)
    }
}

/// The refusal of a line with a call for a seat that names a subject: its number and layer, and the seat and subject that it names.
pub fn call_refused_at(line: u16, seat: u8, named: u16, fault: PageFault) -> Refusal
    ensures { result ≡ call_refusal line seat named fault }
{
    let (number, layer, seat, subject) = match fault {
        PageFault::Malformed => (23, 1, 0, 0),
        PageFault::Plan(f) => (f.number(), 2, f.seat(), 0),
        PageFault::Hall(f) => (f.number(), f.layer(), seat, f.subject(named)),
    };
    Refusal {
        line,
        number,
        layer,
        seat,
        subject,
    }
}

/// The refusal of a line that is no call.
pub fn refused_at(line: u16, fault: PageFault) -> Refusal
    ensures { result ≡ refusal line fault }
{
    call_refused_at(line, 0, 0, fault)
}
