//! Cards: a find of a store.
ghost use Rattle.entries.specs.Likeness.{cards_alike};
ghost use Rattle.std.proofs.Common.{rules};

use crate::entry::Entry;

/// The find of this number in this store.
#[derive(Clone, Copy, PartialEq, Eq, Debug)]
pub struct Card {
    pub store: u16,
    pub find: u32,
}

impl Entry for Card {
    ghost alike = { cards_alike };

    ghost same = { Prim.search rules };

    ghost turned = { Prim.search rules };

    fn is_like(&self, other: &Card) -> bool {
        self == other
    }
}
