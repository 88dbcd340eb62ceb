//! The tables of a plan: all ranks of a draw, and which entries are alike.
ghost use Rattle.std.specs.Prelude.{◌≡◌, ℕ, ◌+◌, ◌/◌, ◌%◌, ◌<◌, ◌≤◌, length, Some, if◌then◌else◌, slice_get, slice_index};
ghost use Rattle.basics.specs.Bit.{bit};
ghost use Rattle.basics.specs.Numbers.{number_value};
ghost use Rattle.draws.specs.Ranks.{drawn, answered};
ghost use Rattle.plans.specs.Tables.{like_in};
ghost use Rattle.plans.specs.Setup.{both_alike, places_alike};

use basics::mask::Mask;
use basics::numbers::{Rank, Round, SeatIndex};
use draws::draw::Draw;
use entries::entry::Entry;
use std::array;

// the rank at place i of a table with 13 ranks to a round, if the draw has one
fn rank_at<D: Draw>(draw: &D, i: u8) -> Option<Rank>
    ensures { number_value result ≡ answered (D.Draw.seats draw.now) (D.Draw.rounds draw.now) (D.Draw.rank draw.now) (i / 13 + 1) (i % 13) }
{
    let round = Round::new(i / 13 + 1)?;
    let seat = SeatIndex::new(i % 13)?;
    draw.rank_of(round, seat)
}

/// All ranks of the draw, 13 to a round; where the draw has none, 0.
pub(super) fn ranks_of<D: Draw>(draw: &D) -> [u8; 104]
    ensures { (i : ℕ) → i < 104 → slice_index result i ≡ (if drawn (D.Draw.seats draw.now) (D.Draw.rounds draw.now) (i / 13 + 1) (i % 13) then D.Draw.rank draw.now (i / 13 + 1) (i % 13) else 0) }
{
    array::from_fn(|i| rank_at(draw, i as u8).map_or(0, Rank::value))
}

// which of the entries are like this one, as a row of bits
fn likeness_row<E: Entry>(entry: &E, entries: &[E]) -> u128
    requires { length entries.now ≤ 128 }
    ensures { (j : ℕ) → j < length entries.now → bit result j ≡ both_alike E.Entry.alike (Some entry.now) (slice_get entries.now j) }
{
    let mut likes = 0u128;
    for (j, other) in entries.iter().enumerate() {
        if entry.is_like(other) {
            likes = likes.with(j as u8);
        }
    }
    likes
}

/// The likeness of all entries.
pub(super) fn likeness_of<E: Entry>(entries: &[E]) -> [u128; 128]
    requires { length entries.now ≤ 128 }
    ensures { like_in (length entries.now) result ≡ places_alike E.Entry.alike entries.now }
{
    let mut likeness = [0; 128];
    for (i, entry) in entries.iter().enumerate() {
        likeness[i] = likeness_row(entry, entries);
    }
    likeness
}
