//! A seat at the opening, its clock, and what can be read of it.
ghost use Rattle.std.specs.Prelude.{◌≡◌, ℕ, ◌-◌, ◌≤◌, Bool, true, false, ◌&&◌, [], length, if◌then◌else◌, Ok, Err, nat_le};
ghost use Rattle.basics.specs.Put.{put};
ghost use Rattle.model.specs.World.{message};
ghost use Rattle.model.specs.Checks.{is_in_round, is_waiting};
ghost use Rattle.model.specs.Seats.{fresh, at_clock};
ghost use Rattle.messages.specs.Meaning.{means};
ghost use Rattle.messages.specs.Stored.{joined, nothing};
ghost use Rattle.seats.specs.Seated.{stage, seated, pooled};
ghost use Rattle.seats.specs.Standings.{Stands};
ghost use Rattle.seats.specs.declared.fault.SeatFault.TheVariants.{Clock};

use super::{Phase, Progress, Seat, Standing};
use crate::fault::SeatFault;
use basics::inline_list::InlineList;
use basics::numbers::Round;
use messages::message::Message;
use messages::set::MessageSet;

impl Phase {
    /// Whether the seat is in its round.
    pub fn is_in_round(self) -> bool
        ensures { result ≡ is_in_round (stage self) }
    {
        self == Phase::InRound
    }

    /// Whether the seat waits for its round.
    pub fn is_waiting(self) -> bool
        ensures { result ≡ is_waiting (stage self) }
    {
        self == Phase::Waiting
    }
}

impl Progress {
    // how long the seat has been in its round
    pub(super) fn elapsed(&self) -> u32
        ensures { result ≡ self.now.clock - self.now.start }
    {
        self.clock.saturating_sub(self.start)
    }
}

impl Seat {
    /// A seat that waits for round 1, with an empty pool.
    pub fn fresh() -> Seat
        ensures seat { seated result ≡ fresh }
        ensures pool { pooled result ≡ nothing }
    {
        let progress = Progress {
            phase: Phase::Waiting,
            round: Round::capped(1),
            clock: 0,
            start: 0,
            proposed: false,
            noted: [false; 313],
            disqualified: 0,
            catalogue: InlineList::empty(),
        };
        Seat {
            progress,
            pool: MessageSet::empty(),
        }
    }

    /// Where the seat is.
    pub fn phase(&self) -> Phase
        ensures { stage result ≡ (seated self.now).phase }
    {
        self.progress.phase
    }

    /// The round that the seat waits for or is in; the last one where it is done.
    pub fn round(&self) -> Round
        ensures { result.value ≡ (seated self.now).round }
    {
        self.progress.round
    }

    /// The highest committed round.
    pub fn k_max(&self) -> u8
        ensures is { result ≡ (seated self.now).k_max }
        ensures few { result ≤ 8 }
    {
        self.progress.catalogue.len() as u8
    }

    /// The numbers of the committed blocks, lowest round first.
    pub fn catalogue(&self) -> &[u16]
        ensures { result.now ≡ (seated self.now).catalogue }
    {
        self.progress.catalogue.as_slice()
    }

    /// How the seat stands.
    pub fn standing(&self) -> Standing
        ensures { Stands result (seated self.now) }
    {
        Standing {
            phase: self.progress.phase,
            round: self.progress.round,
            catalogue: self.progress.catalogue,
        }
    }

    /// What setting the clock to this time would answer: a clock never goes back, nor past 1,000,000,000.
    pub fn may_tick(&self, time: u32) -> Result<(), SeatFault>
        ensures { result ≡ (if nat_le (seated self.now).clock time && nat_le time 1000000000 then Ok tt else Err Clock) }
    {
        if time < self.progress.clock || time > 1000000000 {
            return Err(SeatFault::Clock);
        }
        Ok(())
    }

    /// Sets the clock.
    pub fn tick(&mut self, time: u32) -> Result<(), SeatFault>
        ensures answer { result ≡ (if nat_le (seated self.old).clock time && nat_le time 1000000000 then Ok tt else Err Clock) }
        ensures seat { seated self.new ≡ (if nat_le (seated self.old).clock time && nat_le time 1000000000 then at_clock time (seated self.old) else seated self.old) }
        ensures pool { self.new.pool ≡ self.old.pool }
    {
        self.may_tick(time)?;
        self.progress.clock = time;
        Ok(())
    }

    /// Whether the message is in the pool.
    pub fn holds(&self, m: Message) -> bool
        ensures { result ≡ pooled self.now (means m) }
    {
        self.pool.contains(m)
    }

    /// Puts a message that arrived into the pool; twice is as once.
    pub fn receive(&mut self, m: Message)
        ensures pool { pooled self.new ≡ joined (means m) (pooled self.old) }
        ensures seat { seated self.new ≡ seated self.old }
    {
        self.pool.insert(m);
    }
}
