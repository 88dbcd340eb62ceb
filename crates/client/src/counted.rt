//! A seal book of this crate's own, over any other.
ghost use Rattle.std.specs.Prelude.{◌≡◌};

use seals::book::{SealBook, SealView};

/// A book that counts the seals that it took.
#[derive(Drop)]
pub struct CountedBook<B: SealBook> {
    inner: B,
    taken: u16,
}

impl<B: SealBook> CountedBook<B> {
    /// A book over another, with nothing counted yet.
    pub fn over(inner: B) -> CountedBook<B>
        ensures inner { result.inner ≡ inner }
        ensures taken { result.taken ≡ 0 }
    {
        CountedBook { inner, taken: 0 }
    }

    /// Where its counter stands. What a book owes says nothing of a counter, so nothing is proved of how it counts.
    pub fn taken(&self) -> u16
        ensures { result ≡ self.now.taken }
    {
        self.taken
    }
}

impl<B: SealBook> SealView for CountedBook<B> {
    ghost held = { λ x. B.SealView.held x.inner };

    ghost inside = { λ x. B.SealView.inside x.inner };

    fn asked(&self, kind: u8, seat: u8, subject: u16) -> bool {
        self.inner.asked(kind, seat, subject)
    }

    fn count(&self, kind: u8, subject: u16) -> u8 {
        self.inner.count(kind, subject)
    }
}

impl<B: SealBook> SealBook for CountedBook<B> {
    fn clear(&mut self) {
        self.inner.clear();
        self.taken = 0;
    }

    fn seal(&mut self, kind: u8, seat: u8, subject: u16) -> bool {
        let new = self.inner.seal(kind, seat, subject);
        if new {
            self.taken = self.taken.saturating_add(1);
        }
        new
    }
}
