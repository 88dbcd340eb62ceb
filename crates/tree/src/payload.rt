//! Payloads.
ghost use Rattle.std.specs.Prelude.{◌≡◌, []};

use basics::inline_list::InlineList;

/// What a block carries: at most four places of the entry table, each below 128.
#[derive(Clone, Copy, Debug, PartialEq, Eq)]
pub struct Payload {
    places: InlineList<u8, 4>,
}

impl Payload {
    ghost use Rattle.model.specs.Checks.{same_list};
    ghost use Rattle.tree.specs.Payloads.{listed, payload_list, list_if_ok};

    /// The payload of these places, if there are at most four and each is below 128.
    pub fn new(places: &[u8]) -> Option<Payload>
        ensures { payload_list result ≡ list_if_ok places.now }
    {
        let list = InlineList::from_slice(places)?;
        let are_low = places.iter().all(|x| *x < 128);
        are_low.then_some(Payload { places: list })
    }

    /// The payload with no place.
    pub fn empty() -> Payload
        ensures { listed result ≡ [] }
    {
        Payload {
            places: InlineList::empty(),
        }
    }

    /// The places, in their order.
    pub fn as_slice(&self) -> &[u8]
        ensures { result.now ≡ listed self.now }
    {
        self.places.as_slice()
    }

    /// Whether the other has the same places in the same order.
    pub fn is_same(&self, other: &Payload) -> bool
        ensures { result ≡ same_list (listed self.now) (listed other.now) }
    {
        self == other
    }
}
