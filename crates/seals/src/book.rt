//! What a seal book is: a set of seals that can be asked, and added to.
ghost use Rattle.std.specs.Prelude.{◌≡◌, ℕ, Bool, false, not, ◌&&◌};
ghost use Rattle.basics.specs.Count.{tally};
ghost use Rattle.seals.specs.Seals.{allowed, added, none};

/// What can be asked of a set of seals. A seal is a signature of a seat, of a kind (2, 4 or 6) and on a subject (a block or a round).
// (kind, seat and subject are numbers and no types with ranges: that the answer outside the ranges is no or 0, and that nothing is written there, is a promise of its own)
pub trait SealView {
    /// The set: whether the seal of this kind, seat and subject is in it.
    ghost held: { Self → ℕ → ℕ → ℕ → Bool };

    /// A seal outside the ranges is never in it.
    ghost inside: { (x : Self) (k s b : ℕ) → allowed k s b ≡ false → held x k s b ≡ false };

    /// Whether the seat has sealed this; outside the ranges no.
    fn asked(&self, kind: u8, seat: u8, subject: u16) -> bool
        ensures { result ≡ held self.now kind seat subject };

    /// How many seats have sealed this; outside the ranges 0.
    fn count(&self, kind: u8, subject: u16) -> u8
        ensures { result ≡ tally (λ s. held self.now kind s subject) 13 };
}

/// A set of seals that grows until it is cleared.
pub trait SealBook: SealView {
    /// Takes every seal out.
    fn clear(&mut self)
        ensures { Self.SealView.held self.new ≡ none };

    /// Adds the seal, and says yes exactly if it was not there; outside the ranges it says no and nothing changes.
    fn seal(&mut self, kind: u8, seat: u8, subject: u16) -> bool
        ensures answer { result ≡ (allowed kind seat subject && not (Self.SealView.held self.old kind seat subject)) }
        ensures after { Self.SealView.held self.new ≡ added kind seat subject (Self.SealView.held self.old) };
}

/// Someone who works with a book, whichever it is.
// (A buffer that comes back in an error is not tied to the caller's again; so a book is lent, and what a refused buffer holds is promised.)
pub trait BookUser {
    type Answer;

    /// Which answers there may be, with any book.
    ghost answers: { Self → Self.Answer → Type 0 };

    /// Does the work with the book, and answers.
    fn run<B: SealBook + Drop>(self, book: B) -> Self::Answer
        ensures { answers self result };
}
