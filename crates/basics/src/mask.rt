//! Sets of small numbers as masks: bit i says whether i is in the set.
ghost use Rattle.std.specs.Prelude.{◌≡◌, ℕ, Bool, ◌<◌, ◌≤◌, true, false};
ghost use Rattle.basics.specs.Bit.{bit, Meets};
ghost use Rattle.basics.specs.Put.{put_below};
ghost use Rattle.basics.specs.Count.{tally};

/// A set of small numbers, one bit for each.
// The two bodies of each method stay: written once, as default methods over `Shl`, `BitAnd` and `BitOr`, they
// would need a law for each operator, which is more text than a second body.
pub trait Mask: Copy {
    /// How many numbers there are bits for.
    ghost width: { ℕ };

    /// Which numbers are in the set.
    ghost members: { Self → ℕ → Bool };

    /// Whether i is in the set.
    fn has(self, i: u8) -> bool
        ensures { result ≡ members self i };

    /// The set with i in it. Past the width nothing changes.
    fn with(self, i: u8) -> Self
        ensures { members result ≡ put_below width i true (members self) };
}

impl Mask for u16 {
    ghost width = { 16 };

    ghost members = { bit };

    fn has(self, i: u8) -> bool {
        i < 16 && (self >> i) & 1 == 1
    }

    fn with(self, i: u8) -> u16 {
        if i < 16 { self | (1 << i) } else { self }
    }
}

impl Mask for u128 {
    ghost width = { 128 };

    ghost members = { bit };

    fn has(self, i: u8) -> bool {
        i < 128 && (self >> i) & 1 == 1
    }

    fn with(self, i: u8) -> u128 {
        if i < 128 { self | (1 << i) } else { self }
    }
}

/// The set without i. Past 15 nothing changes.
pub fn without(m: u16, i: u8) -> u16
    ensures { bit result ≡ put_below 16 i false (bit m) }
{
    if i < 16 {
        return m & !(1 << i);
    }
    m
}

/// How many of the 13 seats are in the set.
pub fn size(m: u16) -> u8
    ensures count { result ≡ tally (bit m) 13 }
    ensures few { result ≤ 13 }
{
    (m & 0x1fff).count_ones() as u8
}

/// How many of the numbers below n are in the set.
pub fn size_below(m: u16, n: u8) -> u8
    ensures count { result ≡ tally (bit m) n }
    ensures few { result ≤ n }
    ensures most { result ≤ 16 }
{
    if n < 16 {
        return (m & ((1 << n) - 1)).count_ones() as u8;
    }
    m.count_ones() as u8
}

/// Whether the two sets have a number in common.
pub fn meets(a: u128, b: u128) -> bool
    ensures { Meets result a b }
{
    a & b != 0
}
