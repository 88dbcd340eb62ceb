//! One seal as a record, as a list of them keeps it.
ghost use Rattle.std.specs.Prelude.{◌≡◌, ◌+◌, ◌*◌};
ghost use Rattle.seals.specs.Listed.{is};
ghost use Rattle.seals.specs.Seals.{allowed};

/// A seal: which kind, by which seat, on which block or round.
#[derive(Clone, Copy, Debug, PartialEq, Eq)]
pub struct SealRecord {
    pub kind: u8,
    pub seat: u8,
    pub subject: u16,
}

impl SealRecord {
    // its three parts as one number
    fn key(self) -> u32
        ensures { result ≡ self.kind + 256 * self.seat + 65536 * self.subject }
    {
        u32::from(self.kind) + 256 * u32::from(self.seat) + 65_536 * u32::from(self.subject)
    }

    /// Whether it is the seal of this kind, seat and subject.
    // (all three are compared at once: where a list is searched, tests one by one are hard for a processor to foresee)
    pub fn is_of(self, kind: u8, seat: u8, subject: u16) -> bool
        ensures { result ≡ is self kind seat subject }
    {
        let wanted = SealRecord {
            kind,
            seat,
            subject,
        };
        self.key() == wanted.key()
    }

    /// Whether there can be such a seal.
    pub fn is_allowed(self) -> bool
        ensures { result ≡ allowed self.kind self.seat self.subject }
    {
        self.seat < 13 && matches!((self.kind, self.subject), (2 | 4, 1..=312) | (6, 1..=8))
    }
}
