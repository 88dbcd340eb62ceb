//! The call lines of a run.
ghost use Rattle.std.specs.Prelude.{◌≡◌, ℕ, ◌<◌};
ghost use Rattle.plans.specs.Planned.{model};
ghost use Rattle.hall.specs.Worlds.{world};
ghost use Rattle.basics.specs.Elements.{elements};
ghost use Rattle.lines.specs.Reading.{line_now, IsLast};
ghost use Rattle.frames.specs.Shape.{shape};
ghost use Rattle.page.specs.Reading.{coming};
ghost use Rattle.page.specs.Record.{recorded};
ghost use Rattle.page.specs.Calls.{no_counts, step_world, step_refusals, step_counts, called};

use crate::fault::{PageFault, call_refused_at, refused_at};
use crate::lists::RefusalList;
use frames::decode::decode;
use frames::frame::Frame;
use hall::hall::Hall;
use lines::line::Line;
use lines::reader::Reader;
use records::totals::Counts;
use seals::book::{SealBook, SealView};

/// One line in the place of a call line.
fn take_line<B: SealBook>(
    hall: &mut Hall<B>,
    frame: Option<Frame>,
    line: u16,
    refusals: &mut RefusalList,
    counts: &mut Counts,
)
    requires { (counts.old.calls < 65535) × (counts.old.accepted < 65535) × (counts.old.refused < 65535) }
    ensures world { world B.SealView.held hall.new ≡ step_world (model hall.old.plan) (world B.SealView.held hall.old) (shape frame.entry) }
    ensures plan { model hall.new.plan ≡ model hall.old.plan }
    ensures refusals { elements refusals.new ≡ step_refusals (model hall.old.plan) (world B.SealView.held hall.old) line (elements refusals.old) (shape frame.entry) }
    ensures counts { counts.new ≡ step_counts (model hall.old.plan) (world B.SealView.held hall.old) counts.old (shape frame.entry) }
{
    match frame {
        Some(Frame::Call(call)) => {
            let seat = call.seat();
            let subject = call.subject();
            counts.calls += 1;
            match hall.perform(call) {
                Ok(()) => counts.accepted += 1,
                Err(fault) => {
                    counts.refused += 1;
                    refusals.push(call_refused_at(line, seat, subject, PageFault::from(fault)));
                }
            }
        }
        _ => {
            refusals.push(refused_at(line, PageFault::Malformed));
        }
    }
}

/// The lines from the first call on, which is at hand if there is one.
pub(crate) fn run_calls<B: SealBook>(
    hall: &mut Hall<B>,
    first: Option<Line>,
    reader: &mut Reader,
    refusals: &mut RefusalList,
) -> Counts
    requires { IsLast first reader.old }
    ensures all { recorded (model hall.old.plan) (world B.SealView.held hall.new) (elements refusals.new) result
        ≡ called (model hall.old.plan) (world B.SealView.held hall.old) (line_now reader.old) (elements refusals.old) no_counts (coming first reader.old) }
    ensures plan { model hall.new.plan ≡ model hall.old.plan }
{
    let mut counts = Counts {
        calls: 0,
        accepted: 0,
        refused: 0,
    };
    let mut at_hand = first;
    while let Some(line) = at_hand {
        // read ahead, so that the call need not wait for the bytes that were just stored
        at_hand = reader.next();
        take_line(
            hall,
            decode(line.bytes()),
            line.number(),
            refusals,
            &mut counts,
        );
    }
    counts
}
