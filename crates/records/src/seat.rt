//! What is reported of a seat.
ghost use Rattle.std.specs.Prelude.{◌≡◌, nat_le};
ghost use Rattle.basics.specs.Elements.{elements_of, list_if};
ghost use Rattle.lines.specs.Writing.{Puts};
ghost use Rattle.records.specs.Frames.{report_frame, report_frames};

use basics::inline_list::InlineList;
use lines::output::LineWriter;

/// Where a seat stands: its state (0 waiting, 1 in a round, 2 done), its round, the last round of its catalogue, and the blocks of that, the first `count` of the eight.
#[derive(Clone, Copy)]
pub struct SeatReport {
    pub state: u8,
    pub round: u8,
    pub k_max: u8,
    pub catalogue: [u16; 8],
    pub count: usize,
}

/// The frame of a seat, if it has no more than eight blocks.
fn seat_frame(seat: u8, report: SeatReport) -> Option<InlineList<u8, 21>>
    ensures { elements_of result ≡ list_if (nat_le report.count 8) (report_frame seat report) }
{
    if report.count > 8 {
        return None;
    }
    let mut frame = InlineList::from_slice(&[
        0xe0,
        seat,
        report.state,
        report.round,
        report.k_max,
    ])?;
    for block in &report.catalogue[..report.count] {
        let [high, low] = block.to_be_bytes();
        frame.push(high);
        frame.push(low);
    }
    Some(frame)
}

/// Puts the line of a seat, if it fits. A report of more than eight blocks is left out.
pub fn put_seat(writer: &mut LineWriter, seat: u8, report: SeatReport)
    ensures { Puts writer.old writer.new (report_frames seat report) }
{
    if let Some(frame) = seat_frame(seat, report) {
        writer.put(frame.as_slice());
    }
}
