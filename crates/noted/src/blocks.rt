//! Noted blocks.
ghost use Rattle.std.specs.Prelude.{◌≡◌, ℕ, ◌<◌, ◌≤◌, Bool, true, false, ◌&&◌};
ghost use Rattle.basics.specs.Count.{some_below};
ghost use Rattle.basics.specs.Put.{put};
ghost use Rattle.model.specs.Setup.{numbers};
ghost use Rattle.plans.specs.Planned.{model};
ghost use Rattle.noted.specs.Flags.{Raised};

use basics::numbers::{BlockNumber, Rank};
use plans::plan::Plan;

/// The blocks that a seat has noted: a flag for each number, and two numbers between which they all lie, so that a search is short.
#[derive(Clone, Copy)]
pub struct NotedBlocks {
    flags: [bool; 313],
    // none below this one is noted
    low: u16,
    // nor this one and those above it
    high: u16,
    ghost above: { (q : Raised flags) → low ≤ q.at },
    ghost below: { (q : Raised flags) → q.at < high },
    ghost short: { high ≤ 313 },
}

impl NotedBlocks {
    ghost use Rattle.noted.specs.Meaning.{noted_in, rank_noted, other_noted};

    /// No block is noted.
    pub fn none() -> NotedBlocks
        ensures { noted_in result ≡ (λ (b : ℕ). false) }
    {
        NotedBlocks {
            flags: [false; 313],
            low: 313,
            high: 0,
        }
    }

    /// Whether the block is noted.
    pub fn has(&self, block: BlockNumber) -> bool
        ensures { result ≡ noted_in self.now block.value }
    {
        self.flags[block.value() as usize]
    }

    /// Notes the block.
    pub fn add(&mut self, block: BlockNumber)
        ensures { noted_in self.new ≡ put block.value true (noted_in self.old) }
    {
        let number = block.value();
        self.low = self.low.min(number);
        self.high = self.high.max(number + 1);
        self.flags[number as usize] = true;
    }

    // whether a noted block passes the test: for each p that the test computes, whether p holds of one
    fn has_such<F: Fn(BlockNumber) -> bool>(&self, plan: &Plan, test: F) -> bool
        requires { F.IsAlwaysCallable test }
        ensures { (p : ℕ → Bool) → ((b : _) (r : Bool) → F.post test b r → r ≡ p b.value) → result ≡ some_below (λ b. noted_in self.now b && p b) (numbers (model plan.now)) }
    {
        (self.low..self.high.min(plan.numbers()))
            .map(BlockNumber::capped)
            .any(|block| self.has(block) && test(block))
    }

    /// Whether a block of this rank is noted.
    pub fn has_rank(&self, plan: &Plan, rank: Rank) -> bool
        ensures { result ≡ rank_noted (model plan.now) (noted_in self.now) rank.value }
    {
        self.has_such(plan, |other| plan.rank_of(other) == rank)
    }

    /// Whether another block than this one is noted.
    pub fn has_other(&self, plan: &Plan, block: BlockNumber) -> bool
        ensures { result ≡ other_noted (model plan.now) (noted_in self.now) block.value }
    {
        self.has_such(plan, |other| other != block)
    }
}
