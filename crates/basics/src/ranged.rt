//! Numbers of one byte, each of a kind, and each in the range of its kind.
ghost use Rattle.std.specs.Prelude.{ℕ, ◌≤◌};

use std::alloc::AllocError;
use std::marker::PhantomData;

/// A kind of number, and the range that its numbers are in.
pub trait Kind {
    /// The first number of the range.
    ghost FIRST: { ℕ };

    /// The last number of the range.
    ghost LAST: { ℕ };

    /// There is a number in the range.
    ghost some: { FIRST ≤ LAST };

    /// The first number, for the code.
    const FIRST: u8;

    /// The last number, for the code.
    const LAST: u8;
}

/// A number of the kind `K`: one of another kind is never accepted in its place.
#[derive_where(Debug, PartialEq, Eq)]
pub struct Number<K: Kind> {
    value: u8,
    kind: PhantomData<K>,
    ghost first: { K.FIRST ≤ value },
    ghost last: { value ≤ K.LAST },
}

// By hand: a generic struct with a ghost field cannot derive `Clone`
impl<K: Kind> Clone for Number<K> {
    ghost use Rattle.std.specs.Prelude.{◌≡◌, ⊤};

    ghost is_clone = { λ x y. y ≡ x };

    ghost is_infallible = { λ _. ⊤ };

    fn clone(&self) -> Result<Self, AllocError> {
        Ok(*self)
    }
}

impl<K: Kind> Copy for Number<K> {}

impl<K: Kind> Number<K> {
    ghost use Rattle.std.specs.Prelude.{◌≡◌, ◌&&◌, nat_le, min, max};
    ghost use Rattle.basics.specs.Numbers.{number_value, only_if};

    /// The number of the kind that is this one, if it is in the range.
    pub fn new(value: u8) -> Option<Self>
        ensures { number_value result ≡ only_if (nat_le K.FIRST value && nat_le value K.LAST) value }
    {
        if K::FIRST <= value && value <= K::LAST {
            return Some(Number {
                value,
                kind: PhantomData,
            });
        }
        None
    }

    /// The number as a byte.
    pub fn value(self) -> u8
        ensures same { result ≡ self.value }
        ensures first { K.FIRST ≤ result }
        ensures last { result ≤ K.LAST }
    {
        self.value
    }

    /// The number of the kind that is nearest to this one.
    pub fn capped(value: u8) -> Self
        ensures { result.value ≡ min (max value K.FIRST) K.LAST }
    {
        Number {
            value: value.max(K::FIRST).min(K::LAST),
            kind: PhantomData,
        }
    }
}
