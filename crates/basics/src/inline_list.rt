//! A short list that lies in its owner, oldest element first.
ghost use Rattle.std.specs.Prelude.{◌≤◌};

use std::alloc::AllocError;
use std::fmt::{self, Debug};

/// A list of at most `N` elements: the first `len` of the slots.
// The length takes one byte, so that a list of four bytes takes five: no list has more than 255.
pub struct InlineList<T, const N: usize> {
    slots: [T; N],
    len: u8,
    ghost few: { len ≤ N },
}

// By hand: a generic struct with a ghost field cannot derive `Clone`
impl<T: Copy, const N: usize> Clone for InlineList<T, N> {
    ghost use Rattle.std.specs.Prelude.{◌≡◌, ⊤};

    ghost is_clone = { λ x y. y ≡ x };

    ghost is_infallible = { λ _. ⊤ };

    fn clone(&self) -> Result<Self, AllocError> {
        Ok(*self)
    }
}

impl<T: Copy, const N: usize> Copy for InlineList<T, N> {}

impl<T: Copy, const N: usize> InlineList<T, N> {
    ghost use Rattle.std.specs.Prelude.{◌≡◌, [], ◌∷◌, ◌++◌, length, take, min, if◌then◌else◌, nat_lt, ◌==◌};
    ghost use Rattle.basics.specs.Elements.{elements, most};

    /// The first `len` elements of the array, or all; at most 255.
    pub fn from_array(slots: [T; N], len: usize) -> Self
        ensures { elements result ≡ take (min len (most N)) slots }
    {
        InlineList {
            slots,
            len: len.min(N).min(255) as u8,
        }
    }

    /// Adds x at the end and says yes, if there is room; otherwise changes nothing.
    pub fn push(&mut self, x: T) -> bool
        ensures answer { result ≡ nat_lt (length (elements self.old)) (most N) }
        ensures after { elements self.new ≡ (if result then elements self.old ++ x ∷ [] else elements self.old) }
    {
        let len = self.len as usize;
        if len >= N || self.len == 255 {
            return false;
        }
        self.slots[len] = x;
        self.len += 1;
        true
    }

    /// How many elements it has.
    pub fn len(&self) -> usize
        ensures { result ≡ length (elements self.now) }
    {
        self.len as usize
    }

    /// Whether it has none.
    pub fn is_empty(&self) -> bool
        ensures { result ≡ (length (elements self.now) == 0) }
    {
        self.len == 0
    }

    /// The elements, oldest first.
    pub fn as_slice(&self) -> &[T]
        ensures { result.now ≡ elements self.now }
    {
        &self.slots[..self.len as usize]
    }
}

impl<T: Copy + Default, const N: usize> InlineList<T, N> {
    ghost use Rattle.std.specs.Prelude.{◌≡◌, [], length, nat_le};
    ghost use Rattle.basics.specs.Elements.{elements, elements_of, list_if, most};

    /// The list with no element.
    pub fn empty() -> Self
        ensures { elements result ≡ [] }
    {
        InlineList {
            slots: [T::default(); N],
            len: 0,
        }
    }

    /// The list with the elements of the slice, if there is room for them.
    pub fn from_slice(items: &[T]) -> Option<Self>
        ensures { elements_of result ≡ list_if (nat_le (length items.now) (most N)) items.now }
    {
        if items.len() > N || items.len() > 255 {
            return None;
        }
        let mut slots = [T::default(); N];
        slots[..items.len()].copy_from_slice(items);
        Some(InlineList {
            slots,
            len: items.len() as u8,
        })
    }
}

impl<T: Copy + PartialEq, const N: usize> PartialEq for InlineList<T, N> {
    ghost use Rattle.std.proofs.Common.{rules};
    ghost use Rattle.std.specs.Cmp.Rules.{comparing};
    ghost use Rattle.std.specs.Ordering.{on};
    ghost use Rattle.std.specs.Cmp.Lexicographic.{pointwise};
    ghost use Rattle.basics.specs.Elements.{elements};

    ghost eq = { on elements (pointwise T.eq) };

    ghost laws = { Prim.search (comparing, rules) };

    fn eq(&self, other: &Self) -> bool {
        self.as_slice() == other.as_slice()
    }
}

impl<T: Copy + Eq, const N: usize> Eq for InlineList<T, N> {
    ghost use Rattle.std.proofs.Common.{rules};
    ghost use Rattle.std.specs.Cmp.Rules.{comparing};

    ghost laws = { Prim.search (comparing, rules) };
}

impl<T: Copy + Debug, const N: usize> Debug for InlineList<T, N> {
    fn fmt<W: fmt::Write>(&self, f: &mut fmt::Formatter<W>) -> fmt::Result {
        self.as_slice().fmt(f)
    }
}
