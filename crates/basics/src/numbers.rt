//! Wrapped numbers, each with its range: a rank is never accepted where a seat is expected.
ghost use Rattle.std.specs.Prelude.{◌≤◌};

use crate::ranged::{Kind, Number};

/// A seat of the hall, counted from 0; there are at most 13.
pub type SeatIndex = Number<SeatKind>;

/// The rank of a seat in a round, counted from 0; there are as many as seats.
pub type Rank = Number<RankKind>;

/// A round, counted from 1; there are at most 8.
pub type Round = Number<RoundKind>;

/// The kind of a seat's index.
pub struct SeatKind;

impl Kind for SeatKind {
    ghost use Rattle.std.proofs.Common.{arith};

    ghost FIRST = { 0 };

    ghost LAST = { 12 };

    ghost some = { Prim.omega arith };

    const FIRST: u8 = 0;

    const LAST: u8 = 12;
}

/// The kind of a rank.
pub struct RankKind;

impl Kind for RankKind {
    ghost use Rattle.std.proofs.Common.{arith};

    ghost FIRST = { 0 };

    ghost LAST = { 12 };

    ghost some = { Prim.omega arith };

    const FIRST: u8 = SeatKind::FIRST;

    const LAST: u8 = SeatKind::LAST;
}

/// The kind of a round.
pub struct RoundKind;

impl Kind for RoundKind {
    ghost use Rattle.std.proofs.Common.{arith};

    ghost FIRST = { 1 };

    ghost LAST = { 8 };

    ghost some = { Prim.omega arith };

    const FIRST: u8 = 1;

    const LAST: u8 = 8;
}

/// The number of a block; 0 is the root.
// Not a `Number`, since it takes two bytes: a `Kind` with a word type would need that word's order as a law, which
// is longer than these three methods.
#[derive(Clone, Copy, Debug, PartialEq, Eq)]
pub struct BlockNumber {
    value: u16,
    ghost low: { value ≤ 312 },
}

impl BlockNumber {
    ghost use Rattle.std.specs.Prelude.{◌≡◌, nat_le, min};
    ghost use Rattle.basics.specs.Numbers.{block_value, only_if};

    /// The block of this number, if it is at most 312; 0 is the root.
    pub fn new(value: u16) -> Option<BlockNumber>
        ensures { block_value result ≡ only_if (nat_le value 312) value }
    {
        if value <= 312 {
            return Some(BlockNumber { value });
        }
        None
    }

    /// The number of the block.
    pub fn value(self) -> u16
        ensures same { result ≡ self.value }
        ensures low { result ≤ 312 }
    {
        self.value
    }

    /// The block of this number, or the last one where the number is too high.
    pub fn capped(value: u16) -> BlockNumber
        ensures { result.value ≡ min value 312 }
    {
        BlockNumber {
            value: value.min(312),
        }
    }
}
