//! Why a plan is refused.
ghost use Rattle.std.specs.Prelude.{◌≡◌};
ghost use Rattle.plans.specs.declared.fault.PlanFault.TheVariants.{Draw};
ghost use Rattle.plans.specs.Faults.{plan_fault_number, plan_fault_seat};

use draws::fault::DrawFault;

/// The refusals of a plan, with those of its draw.
#[derive(Clone, Copy, PartialEq, Eq, Debug)]
pub enum PlanFault {
    /// the draw was refused
    Draw(DrawFault),
    /// three times the corrupt seats and one more are above the seats
    TooFewSeats,
    /// a delay is above 10,000
    LongDelay,
    /// this seat cannot be named corrupt
    Corrupt(u8),
    /// there are more than 128 entries
    ManyEntries,
}

impl From<DrawFault> for PlanFault {
    ghost from_gives = { λ f r. r ≡ Draw f };

    fn from(f: DrawFault) -> PlanFault {
        PlanFault::Draw(f)
    }
}

impl PlanFault {
    /// The number of the refusal.
    pub fn number(self) -> u8
        ensures { result ≡ plan_fault_number self }
    {
        match self {
            PlanFault::Draw(f) => f.number(),
            PlanFault::TooFewSeats => 2,
            PlanFault::LongDelay => 3,
            PlanFault::Corrupt(_) => 5,
            PlanFault::ManyEntries => 7,
        }
    }

    /// The seat that the refusal names, or 0.
    pub fn seat(self) -> u8
        ensures { result ≡ plan_fault_seat self }
    {
        match self {
            PlanFault::Corrupt(seat) => seat,
            _ => 0,
        }
    }
}
