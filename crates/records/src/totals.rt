//! How many calls a run had.
ghost use Rattle.std.specs.Prelude.{◌≡◌, [], ◌∷◌};
ghost use Rattle.lines.specs.Writing.{Puts};
ghost use Rattle.records.specs.Frames.{counts_frame};

use lines::output::LineWriter;

/// The calls of a run, and how many of them were accepted and refused.
#[derive(Clone, Copy)]
pub struct Counts {
    pub calls: u16,
    pub accepted: u16,
    pub refused: u16,
}

/// The frame of the counts.
impl From<Counts> for [u8; 7] {
    ghost from_gives = { λ c r. r ≡ counts_frame c };

    fn from(c: Counts) -> [u8; 7] {
        let [calls_high, calls_low] = c.calls.to_be_bytes();
        let [accepted_high, accepted_low] = c.accepted.to_be_bytes();
        let [refused_high, refused_low] = c.refused.to_be_bytes();
        [
            0xef,
            calls_high,
            calls_low,
            accepted_high,
            accepted_low,
            refused_high,
            refused_low,
        ]
    }
}

/// Puts the line of the counts, if it fits.
pub fn put_counts(writer: &mut LineWriter, counts: Counts)
    ensures { Puts writer.old writer.new (counts_frame counts ∷ []) }
{
    writer.put(&<[u8; 7]>::from(counts));
}
