//! Slips: two sherds that belong together.
ghost use Rattle.entries.specs.Likeness.{slips_alike};
ghost use Rattle.std.proofs.Common.{rules};

use crate::entry::Entry;

/// That the sherds of these two numbers join.
#[derive(Clone, Copy, PartialEq, Eq, Debug)]
pub struct Slip {
    pub one: u32,
    pub other: u32,
}

impl Entry for Slip {
    ghost alike = { slips_alike };

    ghost same = { Prim.search rules };

    ghost turned = { Prim.search rules };

    fn is_like(&self, other: &Slip) -> bool {
        self == other || (self.one == other.other && self.other == other.one)
    }
}
