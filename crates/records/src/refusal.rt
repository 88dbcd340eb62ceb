//! Lines that were refused.
ghost use Rattle.std.specs.Prelude.{◌≡◌, map};
ghost use Rattle.lines.specs.Writing.{Puts};
ghost use Rattle.records.specs.Frames.{refusal_frame};

use lines::output::LineWriter;

/// A line that was refused: its number, the refusal's number and layer, and the seat and subject that it names.
#[derive(Clone, Copy, Default)]
pub struct Refusal {
    pub line: u16,
    pub number: u8,
    pub layer: u8,
    pub seat: u8,
    pub subject: u16,
}

/// The frame of a refusal.
impl From<Refusal> for [u8; 8] {
    ghost from_gives = { λ f r. r ≡ refusal_frame f };

    fn from(f: Refusal) -> [u8; 8] {
        let [line_high, line_low] = f.line.to_be_bytes();
        let [subject_high, subject_low] = f.subject.to_be_bytes();
        [
            0xf0,
            line_high,
            line_low,
            f.number,
            f.layer,
            f.seat,
            subject_high,
            subject_low,
        ]
    }
}

/// Puts the lines of refusals, as long as they fit.
pub fn put_refusals(writer: &mut LineWriter, refusals: &[Refusal])
    ensures { Puts writer.old writer.new (map refusal_frame refusals.now) }
{
    for refusal in refusals {
        writer.put(&<[u8; 8]>::from(*refusal));
    }
}
