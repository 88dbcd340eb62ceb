//! Why a seal book cannot be kept in a buffer.
ghost use Rattle.std.specs.Prelude.{◌≡◌};
ghost use Rattle.seals.specs.Lending.{seal_fault_number};

/// The refusals of a seal book.
#[derive(Clone, Copy, Debug, PartialEq, Eq)]
pub enum SealFault {
    /// The buffer is too short.
    Short,
}

impl SealFault {
    /// The number of the refusal.
    pub fn number(self) -> u8
        ensures { result ≡ seal_fault_number self }
    {
        match self {
            SealFault::Short => 4,
        }
    }
}

/// A buffer that is too short for a book. It comes back as it was.
#[derive(Debug, Drop)]
pub struct ShortBuffer<'a, T> {
    pub buffer: &'a mut [T],
}

impl<'a, T> From<ShortBuffer<'a, T>> for SealFault {
    ghost use Rattle.seals.specs.declared.fault.SealFault.TheVariants.{Short};

    ghost from_gives = { λ _ fault. fault ≡ Short };

    fn from(_: ShortBuffer<'a, T>) -> SealFault {
        SealFault::Short
    }
}
