//! The calls of honest seats.
ghost use Rattle.std.specs.Prelude.{◌≡◌, ◌≤◌, []};
ghost use Rattle.model.specs.Setup.{round_of};
ghost use Rattle.model.specs.Checks.Call.{tick as Tick, enter as Enter, propose as Propose, echo as Echo, finish as Finish, commit as Commit};
ghost use Rattle.plans.specs.Planned.{model};
ghost use Rattle.tree.specs.Payloads.{listed as places_of_payload};
ghost use Rattle.seats.specs.Faults.{told};
ghost use Rattle.seats.specs.Sent.{listed, sent};
ghost use Rattle.hall.specs.Faults.{answer};
ghost use Rattle.hall.specs.Worlds.{world};
ghost use Rattle.hall.specs.Steps.{posting, Ran};
ghost use Rattle.hall.specs.Answers.{Called};

use super::Hall;
use super::admit::Sort;
use crate::fault::HallFault;
use basics::numbers::{BlockNumber, SeatIndex};
use seals::book::{SealBook, SealView};
use seats::context::Context;
use seats::fault::SeatFault;
use seats::outgoing::Outgoing;
use tree::payload::Payload;

impl<B: SealBook> Hall<B> {
    // posts what a seat broadcasts
    fn post(&mut self, who: SeatIndex, outgoing: Outgoing)
        ensures plan { self.new.plan ≡ self.old.plan }
        ensures world { world B.SealView.held self.new ≡ posting who.value (listed outgoing) (world B.SealView.held self.old) }
    {
        self.seats[who.value() as usize].post(outgoing, &mut self.broadcast);
    }

    // sets the seat's clock
    fn run_tick(&mut self, who: SeatIndex, time: u32) -> Result<(), SeatFault>
        ensures { Ran B.SealView.held 2 self.old self.new (Tick who.value time) (told who.value 0 result) [] }
    {
        self.seats[who.value() as usize].tick(time)
    }

    // the seat's rule
    fn run_enter(&mut self, who: SeatIndex) -> Result<Outgoing, SeatFault>
        ensures { Ran B.SealView.held 2 self.old self.new (Enter who.value) (told who.value 0 result) (sent result) }
    {
        self.seats[who.value() as usize].enter(&self.plan, &mut self.book, who)
    }

    // the seat's rule
    fn run_propose(
        &mut self,
        who: SeatIndex,
        parent: BlockNumber,
        payload: Payload,
    ) -> Result<Outgoing, SeatFault>
        ensures { Ran B.SealView.held 3 self.old self.new (Propose who.value parent.value (places_of_payload payload)) (told who.value parent.value result) (sent result) }
    {
        self.seats[who.value() as usize].propose(&self.plan, &mut self.tree, who, parent, payload)
    }

    // the seat's rule
    fn run_echo(&mut self, who: SeatIndex, block: BlockNumber) -> Result<Outgoing, SeatFault>
        ensures { Ran B.SealView.held 3 self.old self.new (Echo who.value block.value) (told who.value block.value result) (sent result) }
    {
        let seats = &mut self.seats;
        let at = Context {
            plan: &self.plan,
            tree: &self.tree,
            who,
        };
        seats[who.value() as usize].echo(at, &mut self.book, block)
    }

    // the seat's rule
    fn run_finish(&mut self, who: SeatIndex, block: BlockNumber) -> Result<Outgoing, SeatFault>
        ensures { Ran B.SealView.held 3 self.old self.new (Finish who.value block.value) (told who.value block.value result) (sent result) }
    {
        let seats = &mut self.seats;
        let at = Context {
            plan: &self.plan,
            tree: &self.tree,
            who,
        };
        seats[who.value() as usize].finish(at, &mut self.book, block)
    }

    // the seat's rule
    fn run_commit(&mut self, who: SeatIndex, block: BlockNumber) -> Result<Outgoing, SeatFault>
        requires { round_of (model self.old.plan) block.value ≤ 8 }
        ensures { Ran B.SealView.held 3 self.old self.new (Commit who.value block.value) (told who.value block.value result) (sent result) }
    {
        let seats = &mut self.seats;
        let at = Context {
            plan: &self.plan,
            tree: &self.tree,
            who,
        };
        seats[who.value() as usize].commit(at, block)
    }

    /// Sets an honest seat's clock.
    pub fn tick(&mut self, seat: u8, time: u32) -> Result<(), HallFault>
        ensures { Called B.SealView.held self.old self.new (Tick seat time) (answer seat 0 result) }
    {
        let who = self.seat_of(Sort::Honest, seat)?;
        self.run_tick(who, time)?;
        Ok(())
    }

    /// An honest seat enters the round that it waits for.
    pub fn enter(&mut self, seat: u8) -> Result<(), HallFault>
        ensures { Called B.SealView.held self.old self.new (Enter seat) (answer seat 0 result) }
    {
        let who = self.seat_of(Sort::Honest, seat)?;
        let outgoing = self.run_enter(who)?;
        self.post(who, outgoing);
        Ok(())
    }

    /// An honest seat makes its block of the round on a parent.
    pub fn propose(&mut self, seat: u8, parent: u16, places: &[u8]) -> Result<(), HallFault>
        ensures { Called B.SealView.held self.old self.new (Propose seat parent places.now) (answer seat parent result) }
    {
        let who = self.seat_of(Sort::Honest, seat)?;
        let known = self.known_block(parent)?;
        let payload = Payload::new(places).ok_or(HallFault::OutOfRange)?;
        let outgoing = self.run_propose(who, known, payload)?;
        self.post(who, outgoing);
        Ok(())
    }

    /// An honest seat echoes a block: passes it on, and notes it or disqualifies its rank.
    pub fn echo(&mut self, seat: u8, block: u16) -> Result<(), HallFault>
        ensures { Called B.SealView.held self.old self.new (Echo seat block) (answer seat block result) }
    {
        let who = self.seat_of(Sort::Honest, seat)?;
        let known = self.known_block(block)?;
        let outgoing = self.run_echo(who, known)?;
        self.post(who, outgoing);
        Ok(())
    }

    /// An honest seat finishes its round with a notarized block.
    pub fn finish(&mut self, seat: u8, block: u16) -> Result<(), HallFault>
        ensures { Called B.SealView.held self.old self.new (Finish seat block) (answer seat block result) }
    {
        let who = self.seat_of(Sort::Honest, seat)?;
        let known = self.known_block(block)?;
        let outgoing = self.run_finish(who, known)?;
        self.post(who, outgoing);
        Ok(())
    }

    /// An honest seat commits a finalized block and its chain.
    pub fn commit(&mut self, seat: u8, block: u16) -> Result<(), HallFault>
        ensures { Called B.SealView.held self.old self.new (Commit seat block) (answer seat block result) }
    {
        let who = self.seat_of(Sort::Honest, seat)?;
        let known = self.known_block(block)?;
        let outgoing = self.run_commit(who, known)?;
        self.post(who, outgoing);
        Ok(())
    }
}
