//! A record in words.
use basics::inline_list::InlineList;
use records::refusal::Refusal;
use records::totals::Counts;
use seats::seat::Phase;
use std::error::Error;
use std::fmt;
use std::str::from_utf8;

/// How an honest seat stands at the end of a run: its phase, its round and the blocks that it committed, each of two bytes.
#[derive(Clone, Copy)]
pub struct Standing<'a> {
    pub seat: u8,
    pub phase: Phase,
    pub round: u8,
    pub blocks: &'a [[u8; 2]],
}

/// What a line of a record says.
#[derive(Clone, Copy)]
pub enum Line<'a> {
    Refused(Refusal),
    Stands(Standing<'a>),
    Counted(Counts),
}

/// The bytes are no line of a record.
#[derive(Clone, Copy, Debug)]
pub struct NoLine;

impl fmt::Display for NoLine {
    fn fmt<W: fmt::Write>(&self, f: &mut fmt::Formatter<W>) -> fmt::Result {
        write!(f, "not a line of a record")
    }
}

impl Error for NoLine {}

// the phase that a byte says
fn phase_of(state: u8) -> Phase {
    match state {
        0 => Phase::Waiting,
        1 => Phase::InRound,
        _ => Phase::Done,
    }
}

impl<'a> TryFrom<&'a [u8]> for Line<'a> {
    type Error = NoLine;

    fn try_from(frame: &'a [u8]) -> Result<Line<'a>, NoLine> {
        match frame {
            [0xf0, h, l, number, layer, seat, sh, sl] => Ok(Line::Refused(Refusal {
                line: u16::from_be_bytes([*h, *l]),
                number: *number,
                layer: *layer,
                seat: *seat,
                subject: u16::from_be_bytes([*sh, *sl]),
            })),
            [0xe0, seat, state, round, _, blocks @ ..] => Ok(Line::Stands(Standing {
                seat: *seat,
                phase: phase_of(*state),
                round: *round,
                blocks: blocks.as_chunks().0,
            })),
            [0xef, ch, cl, ah, al, rh, rl] => Ok(Line::Counted(Counts {
                calls: u16::from_be_bytes([*ch, *cl]),
                accepted: u16::from_be_bytes([*ah, *al]),
                refused: u16::from_be_bytes([*rh, *rl]),
            })),
            _ => Err(NoLine),
        }
    }
}

// what a refusal means, by its number
fn meaning(number: u8) -> &'static str {
    match number {
        1 => "seats not from 1 to 13, or rounds not from 1 to 8",
        2 => "three times the corrupt seats and one more are above the seats",
        3 => "a delay above 10,000",
        5 => "this seat cannot be named corrupt",
        6 => "the ranks of the round are not each once",
        7 => "more than 128 entries",
        8 => "no such seat",
        9 => "a call for the other sort of seat",
        10 => "out of range or not made, or more than four places",
        11 => "the clock goes back, or past 1,000,000,000",
        12 => "not waiting, or not in a round",
        13 => "too few beacon shares",
        14 => "the delay is not over",
        15 => "a second proposal, or a fourth forged block",
        16 => "noted, disqualified, forged or sealed before",
        17 => "a wrong round, or not above the last committed one",
        18 => "the block is not valid, or the parent not notarized",
        19 => "the payload is not sound",
        20 => "a better block is there",
        21 => "too few shares, and nothing combined",
        22 => "no such message exists",
        _ => "not a whole frame in its place",
    }
}

// where a seat is, before the number of its round
fn whereabouts(phase: Phase) -> &'static str {
    match phase {
        Phase::Waiting => "waits for round",
        Phase::InRound => "is in round",
        Phase::Done => "is done after round",
    }
}

impl fmt::Display for Standing<'_> {
    fn fmt<W: fmt::Write>(&self, f: &mut fmt::Formatter<W>) -> fmt::Result {
        write!(
            f,
            "seat {} {} {}",
            self.seat,
            whereabouts(self.phase),
            self.round
        )?;
        if self.blocks.is_empty() {
            return write!(f, ", nothing committed");
        }
        write!(f, ", committed")?;
        for block in self.blocks {
            write!(f, " {}", u16::from_be_bytes(*block))?;
        }
        Ok(())
    }
}

impl fmt::Display for Line<'_> {
    fn fmt<W: fmt::Write>(&self, f: &mut fmt::Formatter<W>) -> fmt::Result {
        match self {
            Line::Refused(refusal) => write!(
                f,
                "line {}: refused, {} (layer {}, seat {}, subject {}): {}",
                refusal.line,
                refusal.number,
                refusal.layer,
                refusal.seat,
                refusal.subject,
                meaning(refusal.number)
            ),
            Line::Stands(standing) => write!(f, "{standing}"),
            Line::Counted(counts) => write!(
                f,
                "{} calls, {} accepted, {} refused",
                counts.calls, counts.accepted, counts.refused
            ),
        }
    }
}

// the bytes of a line of hexadecimal; a line of a record has no more than 21
fn bytes_of(line: &str) -> anyhow::Result<InlineList<u8, 24>> {
    let mut bytes = InlineList::empty();
    for pair in line.as_bytes().chunks_exact(2) {
        bytes.push(u8::from_str_radix(from_utf8(pair)?, 16)?);
    }
    Ok(bytes)
}

/// Prints a record, line by line.
pub fn print_record(rt: &HostRuntime, record: &str) -> anyhow::Result<()> {
    for line in record.lines() {
        let frame = bytes_of(line)?;
        let line = Line::try_from(frame.as_slice())?;
        println!(rt; "{line}")?;
    }
    Ok(())
}
