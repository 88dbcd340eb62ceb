//! What an entry is: something that may be like another of its kind.
ghost use Rattle.std.specs.Prelude.{◌≡◌, Bool, true};

/// An entry of the catalogue.
pub trait Entry {
    /// Whether the first is like the second.
    ghost alike: { Self → Self → Bool };

    /// Whether this entry is like the other.
    fn is_like(&self, other: &Self) -> bool
        ensures { result ≡ alike self.now other.now };

    /// Each entry is like itself.
    ghost same: { (x : Self) → alike x x ≡ true };

    /// If x is like y, then y is like x.
    ghost turned: { (x y : Self) → alike x y ≡ true → alike y x ≡ true };
}
