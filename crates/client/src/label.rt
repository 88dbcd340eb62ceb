//! A kind of entry of this crate's own.
ghost use Rattle.client.specs.Labelled.{labels_alike};
ghost use Rattle.std.proofs.Common.{rules};

use entries::entry::Entry;

/// A label with a number; those of one hundred are alike.
#[derive(Clone, Copy, PartialEq, Eq, Debug)]
pub struct Label {
    pub number: u16,
}

impl Entry for Label {
    ghost alike = { labels_alike };

    ghost same = { Prim.search rules };

    ghost turned = { Prim.search rules };

    fn is_like(&self, other: &Label) -> bool {
        self.number / 100 == other.number / 100
    }
}
