//! The record of a run.
ghost use Rattle.std.specs.Prelude.{◌≡◌, ◌*◌, ◌≤◌, length};
ghost use Rattle.basics.specs.Elements.{elements};
ghost use Rattle.seats.specs.Seated.{stage};
ghost use Rattle.seats.specs.Standings.{Stands};
ghost use Rattle.model.specs.World.{Seat};
ghost use Rattle.plans.specs.Planned.{model};
ghost use Rattle.hall.specs.Worlds.{world};
ghost use Rattle.lines.specs.Output.{text};
ghost use Rattle.lines.specs.Writing.{Puts, Fills};
ghost use Rattle.page.specs.Record.{state, seat_frames, recorded, only};
ghost use Rattle.page.specs.Shape.{Reported};

use crate::lists::RefusalList;
use hall::hall::Hall;
use lines::output::LineWriter;
use records::refusal::{Refusal, put_refusals};
use records::seat::{SeatReport, put_seat};
use records::totals::{Counts, put_counts};
use seals::book::{SealBook, SealView};
use seats::seat::{Phase, Standing};

/// The byte that says a phase.
fn state_of(phase: Phase) -> u8
    ensures { result ≡ state (stage phase) }
{
    match phase {
        Phase::Waiting => 0,
        Phase::InRound => 1,
        Phase::Done => 2,
    }
}

/// The report of how a seat stands.
fn report(standing: &Standing) -> SeatReport
    ensures { (x : Seat) → Stands standing.now x → Reported result x }
{
    let blocks = standing.catalogue.as_slice();
    let count = blocks.len();
    let mut catalogue = [0; 8];
    catalogue[..count].copy_from_slice(blocks);
    SeatReport {
        state: state_of(standing.phase),
        round: standing.round.value(),
        k_max: count as u8,
        catalogue,
        count,
    }
}

/// Puts the lines of the honest seats.
fn put_seats<B: SealBook>(writer: &mut LineWriter, hall: &Hall<B>)
    ensures seats { Puts writer.old writer.new (seat_frames (model hall.now.plan) (world B.SealView.held hall.now) (model hall.now.plan).n) }
    ensures few { length (text (seat_frames (model hall.now.plan) (world B.SealView.held hall.now) (model hall.now.plan).n)) ≤ 43 * 13 }
{
    for seat in 0..hall.seat_count() {
        if let Some(standing) = hall.standing(seat) {
            put_seat(writer, seat, report(&standing));
        }
    }
}

/// Puts all that is written at the end of a run: its length.
pub(crate) fn put_record<B: SealBook>(
    out: &mut [u8; 2048],
    hall: &Hall<B>,
    refusals: &RefusalList,
    counts: Counts,
) -> usize
    ensures { Fills out.old (recorded (model hall.now.plan) (world B.SealView.held hall.now) (elements refusals.now) counts) out.new result }
{
    let mut writer = LineWriter::new(out, 0);
    put_refusals(&mut writer, refusals.as_slice());
    put_seats(&mut writer, hall);
    put_counts(&mut writer, counts);
    writer.place()
}

/// Puts the line of one refusal alone: its length.
pub(crate) fn put_only(out: &mut [u8; 2048], refusal: Refusal) -> usize
    ensures { Fills out.old (only refusal) out.new result }
{
    let mut writer = LineWriter::new(out, 0);
    put_refusals(&mut writer, &[refusal]);
    writer.place()
}
