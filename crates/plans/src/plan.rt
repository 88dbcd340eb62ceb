//! A plan.
ghost use Rattle.std.specs.Prelude.{ℕ, ◌≡◌, ◌+◌, ◌*◌, ◌≤◌, min, cond, List, [], ◌∷◌, ◌++◌, length, if◌then◌else◌, nat_le};
ghost use Rattle.basics.specs.Bit.{bit};
ghost use Rattle.basics.specs.Count.{tally};
ghost use Rattle.basics.specs.Numbers.{number_value};
ghost use Rattle.model.specs.Setup.{Lawful, numbers, number, round_of, maker_of, rank_of, honest, prop_delay, ntry_delay, quorum};
ghost use Rattle.model.specs.World.{unlike_all};
ghost use Rattle.plans.specs.Tables.{RanksBelow, RanksApart, LikeSelf, LikeBack};
ghost use Rattle.plans.specs.Places.{SetOf, can_follow};

use crate::fault::PlanFault;
use basics::mask::{self, Mask};
use basics::numbers::{BlockNumber, Rank, Round, SeatIndex};
use draws::draw::Draw;
use draws::sizes::Sizes;
use entries::entry::Entry;
use tables::{likeness_of, ranks_of};

mod tables;

/// What is fixed when a hall opens. It is used up by the opening, and always lawful.
#[derive(Drop)]
pub struct Plan {
    sizes: Sizes,
    // how many seats may be corrupt
    most_corrupt: u8,
    // the two numbers that delays are made of
    d: u16,
    e: u16,
    // the corrupt seats, as a mask
    corrupt: u16,
    // how many entries there are, and which of them are alike, a row of bits to an entry
    entries: u8,
    likeness: [u128; 128],
    // the ranks, 13 to a round
    ranks: [u8; 104],
    ghost outvoted: { 3 * most_corrupt + 1 ≤ sizes.seats },
    ghost rare: { tally (bit corrupt) sizes.seats ≤ most_corrupt },
    ghost quick: { d ≤ 10000 },
    ghost soon: { e ≤ 10000 },
    ghost listed: { entries ≤ 128 },
    ghost below: { RanksBelow sizes.seats sizes.rounds ranks },
    ghost apart: { RanksApart sizes.seats sizes.rounds ranks },
    ghost same: { LikeSelf entries likeness },
    ghost back: { LikeBack entries likeness },
}

impl Plan {
    ghost use Rattle.plans.specs.Planned.{model, held_by};
    ghost use Rattle.plans.specs.Setup.{modelled, planned, can_be_corrupt, named_corrupt, with_corrupt, with_entries, entries_taken};

    /// A plan with the seats, rounds and ranks of a draw, at most `most_corrupt` corrupt seats (none named yet), the delays' numbers
    /// d and e, and no entries.
    pub fn new<D: Draw>(draw: &D, most_corrupt: u8, d: u16, e: u16) -> Result<Plan, PlanFault>
        ensures { modelled result ≡ planned (D.Draw.seats draw.now) (D.Draw.rounds draw.now) (D.Draw.rank draw.now) most_corrupt d e }
    {
        // what a draw answers are the sizes of a draw, so this refuses nothing
        let sizes = Sizes::new(draw.seat_count(), draw.round_count())?;
        if 3 * most_corrupt as u16 + 1 > sizes.seats() as u16 {
            return Err(PlanFault::TooFewSeats);
        }
        if d > 10000 || e > 10000 {
            return Err(PlanFault::LongDelay);
        }
        let ranks = ranks_of(draw);
        Ok(Plan {
            sizes,
            most_corrupt,
            d,
            e,
            corrupt: 0,
            entries: 0,
            likeness: [0; 128],
            ranks,
        })
    }

    /// Names one more seat corrupt; refused where it is none of the seats, was named before, or as many as may be are named.
    pub fn name_corrupt(&mut self, seat: u8) -> Result<(), PlanFault>
        ensures answer { result ≡ named_corrupt (model self.old) seat }
        ensures plan { model self.new ≡ (if can_be_corrupt (model self.old) seat then with_corrupt seat (model self.old) else model self.old) }
    {
        let seats = self.sizes.seats();
        if seat >= seats
            || self.corrupt.has(seat)
            || mask::size_below(self.corrupt, seats) >= self.most_corrupt
        {
            return Err(PlanFault::Corrupt(seat));
        }
        self.corrupt = self.corrupt.with(seat);
        Ok(())
    }

    /// Takes the entries of any kind, in place of those before: how many, and which are alike. More than 128 are refused.
    pub fn set_entries<E: Entry>(&mut self, entries: &[E]) -> Result<(), PlanFault>
        ensures answer { result ≡ entries_taken entries.now }
        ensures plan { model self.new ≡ (if nat_le (length entries.now) 128 then with_entries E.Entry.alike entries.now (model self.old) else model self.old) }
    {
        if entries.len() > 128 {
            return Err(PlanFault::ManyEntries);
        }
        self.likeness = likeness_of(entries);
        self.entries = entries.len() as u8;
        Ok(())
    }

    /// How many seats there are.
    pub fn seats(&self) -> u8
        ensures is { result ≡ (model self.now).n }
        ensures few { result ≤ 13 }
    {
        self.sizes.seats()
    }

    /// How many rounds there are.
    pub fn rounds(&self) -> u8
        ensures is { result ≡ (model self.now).rounds }
        ensures few { result ≤ 8 }
    {
        self.sizes.rounds()
    }

    /// How many seats may be corrupt.
    pub fn most_corrupt(&self) -> u8
        ensures is { result ≡ (model self.now).t }
        ensures few { result ≤ 4 }
    {
        self.most_corrupt
    }

    /// How many entries there are.
    pub fn entries(&self) -> u8
        ensures { result ≡ (model self.now).entries }
    {
        self.entries
    }

    /// Whether the seat is honest.
    pub fn is_honest(&self, seat: SeatIndex) -> bool
        ensures { result ≡ honest (model self.now) seat.value }
    {
        !self.corrupt.has(seat.value())
    }

    /// How many seats make a quorum.
    pub fn quorum(&self) -> u8
        ensures { result ≡ quorum (model self.now) }
    {
        self.sizes.seats().saturating_sub(self.most_corrupt)
    }

    /// How many block numbers there are, the root's among them.
    pub fn numbers(&self) -> u16
        ensures is { result ≡ numbers (model self.now) }
        ensures few { result ≤ 313 }
    {
        1 + self.sizes.pairs() * 3
    }

    /// The round of a block; the root's is 0.
    pub fn round_of(&self, block: BlockNumber) -> u8
        ensures is { result ≡ round_of (model self.now) block.value }
        ensures few { result ≤ 104 }
    {
        let number = block.value();
        if number == 0 {
            return 0;
        }
        ((number - 1) / 3 / self.sizes.seats() as u16 + 1) as u8
    }

    /// The seat that made a block.
    pub fn maker_of(&self, block: BlockNumber) -> SeatIndex
        ensures { result.value ≡ maker_of (model self.now) block.value }
    {
        SeatIndex::capped((block.value().saturating_sub(1) / 3 % self.sizes.seats() as u16) as u8)
    }

    /// The rank of a seat in a round; where the plan has no such seat or round, the seat's own number.
    pub fn rank(&self, round: Round, seat: SeatIndex) -> Rank
        ensures { result.value ≡ (model self.now).rank round.value seat.value }
    {
        if !self.sizes.has(round, seat) {
            return Rank::capped(seat.value());
        }
        Rank::capped(self.ranks[(round.value() as usize - 1) * 13 + seat.value() as usize])
    }

    /// The rank of a block: its maker's, in its round.
    pub fn rank_of(&self, block: BlockNumber) -> Rank
        ensures { result.value ≡ rank_of (model self.now) block.value }
    {
        let maker = self.maker_of(block);
        match Round::new(self.round_of(block)) {
            Some(round) => self.rank(round, maker),
            None => Rank::capped(maker.value()),
        }
    }

    /// The number of the block that a seat makes in a round, with the variant 0, 1 or 2 (a higher one counts as 2).
    pub fn number(&self, round: Round, maker: SeatIndex, variant: u8) -> BlockNumber
        ensures { result.value ≡ number (model self.now) round.value maker.value (min variant 2) }
    {
        let pair = (round.value() as u16 - 1) * self.sizes.seats() as u16 + maker.value() as u16;
        BlockNumber::capped(1 + pair * 3 + variant.min(2) as u16)
    }

    /// The seat that has this rank in the round, if one has.
    pub fn holder(&self, round: Round, rank: Rank) -> Option<SeatIndex>
        ensures { number_value result ≡ held_by (model self.now) round.value rank.value }
    {
        // a loop, since `map` and `find` take a quarter more instructions where a seat looks for the best block
        for s in 0..self.sizes.seats() {
            let seat = SeatIndex::capped(s);
            if self.rank(round, seat) == rank {
                return Some(seat);
            }
        }
        None
    }

    /// How long a seat of this rank waits before it proposes.
    pub fn prop_delay(&self, rank: Rank) -> u32
        ensures { result ≡ prop_delay (model self.now) rank.value }
    {
        2 * self.d as u32 * rank.value() as u32
    }

    /// How long a seat waits before it echoes a block of this rank.
    pub fn ntry_delay(&self, rank: Rank) -> u32
        ensures { result ≡ ntry_delay (model self.now) rank.value }
    {
        2 * self.d as u32 * rank.value() as u32 + self.e as u32
    }

    /// Whether the entries at two places are alike.
    pub fn alike(&self, x: u8, y: u8) -> bool
        ensures { result ≡ (model self.now).like x y }
    {
        x < self.entries && y < self.entries && self.likeness[x as usize].has(y)
    }

    /// Whether the entry at x is like none of those at the places.
    pub fn unlike(&self, x: u8, places: &[u8]) -> bool
        ensures { result ≡ unlike_all (model self.now) x places.now }
    {
        places.iter().all(|&y| !self.alike(x, y))
    }

    /// Whether the place x is in the entry table and like no place of the set.
    pub fn fits(&self, set: u128, x: u8) -> bool
        ensures { (ys : List ℕ) → SetOf (model self.now) set ys → result ≡ can_follow (model self.now) ys x }
    {
        x < self.entries && !mask::meets(self.likeness[x as usize], set)
    }

    /// The set with the place x in it. Past the entry table nothing changes.
    pub fn with_place(&self, set: u128, x: u8) -> u128
        ensures { (ys : List ℕ) → SetOf (model self.now) set ys → SetOf (model self.now) result (ys ++ (x ∷ [])) }
    {
        if x < self.entries { set.with(x) } else { set }
    }

    /// Every plan is lawful: nothing else is needed for the law.
    pub fn is_lawful(&self)
        ensures { Lawful (model self.now) }
    {}
}
