//! The draw that reads its ranks from a table.
ghost use Rattle.std.specs.Prelude.{◌≡◌, ℕ, ◌*◌, ◌<◌, ◌≤◌, false, not, length, slice_index};
ghost use Rattle.basics.specs.Count.{some_below};
ghost use Rattle.draws.specs.Ranks.{misplaced, table_rank, some_misplaced, once_at};

use crate::draw::Draw;
use crate::fault::DrawFault;
use crate::sizes::Sizes;
use basics::mask::Mask;
use basics::numbers::{Rank, Round, SeatIndex};

/// The ranks of some seats over some rounds, round by round and, in a round, seat by seat.
#[derive(Clone, Copy, PartialEq, Eq, Debug)]
pub struct TableDraw {
    sizes: Sizes,
    ranks: [u8; 104],
    ghost once: { some_misplaced sizes.seats sizes.rounds (table_rank sizes.seats sizes.rounds ranks) ≡ false },
}

/// Whether the ranks of a round are 0 to n - 1, each once, where there are n of them.
fn round_once(ranks: &[u8]) -> bool
    requires { length ranks.now ≤ 13 }
    ensures { result ≡ not (some_below (misplaced (length ranks.now) (slice_index ranks.now)) (length ranks.now)) }
{
    let mut seen = 0u16;
    for &rank in ranks {
        if rank as usize >= ranks.len() || seen.has(rank) {
            return false;
        }
        seen = seen.with(rank);
    }
    true
}

/// Whether the ranks of every round are each once.
fn all_once(ranks: &[u8], sizes: Sizes) -> bool
    requires { length ranks.now ≡ sizes.seats * sizes.rounds }
    ensures { result ≡ not (some_misplaced sizes.seats sizes.rounds (table_rank sizes.seats sizes.rounds ranks.now)) }
{
    ranks.chunks_exact(sizes.seats() as usize).all(round_once)
}

/// A table that begins with the ranks.
fn copied(ranks: &[u8]) -> [u8; 104]
    requires { length ranks.now ≤ 104 }
    ensures { (i : ℕ) → i < length ranks.now → slice_index result i ≡ slice_index ranks.now i }
{
    let mut table = [0; 104];
    table[..ranks.len()].copy_from_slice(ranks);
    table
}

impl TableDraw {
    ghost use Rattle.draws.specs.Made.{table_means, table_made};

    /// The draw with the first n × rounds of the ranks.
    pub fn new(n: u8, rounds: u8, ranks: &[u8]) -> Result<TableDraw, DrawFault>
        ensures { table_means result ≡ table_made n rounds ranks.now }
    {
        let sizes = Sizes::new(n, rounds)?;
        let listed = ranks.get(..sizes.pairs() as usize).ok_or(DrawFault::Short)?;
        if !all_once(listed, sizes) {
            return Err(DrawFault::NotOnce);
        }
        Ok(TableDraw {
            sizes,
            ranks: copied(listed),
        })
    }
}

impl Draw for TableDraw {
    ghost seats = { λ d. d.sizes.seats };

    ghost rounds = { λ d. d.sizes.rounds };

    ghost rank = { λ d. table_rank d.sizes.seats d.sizes.rounds d.ranks };

    ghost within = { λ d. d.sizes.within };

    ghost once = { λ d k lo hi. once_at d.sizes.seats d.sizes.rounds (table_rank d.sizes.seats d.sizes.rounds d.ranks) d.once k lo hi };

    fn seat_count(&self) -> u8 {
        self.sizes.seats()
    }

    fn round_count(&self) -> u8 {
        self.sizes.rounds()
    }

    fn rank_of(&self, round: Round, seat: SeatIndex) -> Option<Rank> {
        if !self.sizes.has(round, seat) {
            return None;
        }
        let place = (round.value() as usize - 1) * self.sizes.seats() as usize
            + seat.value() as usize;
        Rank::new(self.ranks[place])
    }
}
