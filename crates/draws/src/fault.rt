//! Why a draw cannot be made.
ghost use Rattle.std.specs.Prelude.{◌≡◌};
ghost use Rattle.draws.specs.Faults.{draw_fault_number};

/// The refusals of a draw, in the order in which they are judged.
#[derive(Clone, Copy, PartialEq, Eq, Debug)]
pub enum DrawFault {
    /// Not from 1 to 13 seats, or not from 1 to 8 rounds.
    Sizes,
    /// Fewer ranks than seats times rounds.
    Short,
    /// The ranks of some round are not 0 to n - 1, each once.
    NotOnce,
}

impl DrawFault {
    /// The number of the refusal.
    pub fn number(self) -> u8
        ensures { result ≡ draw_fault_number self }
    {
        match self {
            DrawFault::Sizes => 1,
            DrawFault::Short => 4,
            DrawFault::NotOnce => 6,
        }
    }
}
