//! The seal book of 632 masks: kind 2 by block, then kind 4 by block, then kind 6 by round; bit s is seat s.
ghost use Rattle.std.specs.Prelude.{◌≡◌, ◌≤◌, ◌<◌, MatchOption, length};
ghost use Rattle.seals.specs.Lending.{Lent, MakesBook, Refused};
ghost use Rattle.seals.specs.Rows.{row_at, row_holds, row_inside};

use crate::book::{BookUser, SealBook, SealView};
use crate::fault::{SealFault, ShortBuffer};
use basics::mask::{self, Mask};

/// How many masks a book has.
const ROWS: usize = 632;

/// A book in the caller's memory.
#[derive(Drop)]
pub struct RowBook<'a> {
    masks: &'a mut [u16],
    ghost whole: { 632 ≤ length masks.now },
}

/// The row of a kind and a subject, if they have one.
fn row_at(kind: u8, subject: u16) -> Option<usize>
    ensures { MatchOption result (row_at kind subject ≡ ROWS) (λ at. (at ≡ row_at kind subject) × (at < ROWS)) }
{
    let first = match (kind, subject) {
        (2, 1..=312) => 0,
        (4, 1..=312) => 312,
        (6, 1..=8) => 624,
        _ => return None,
    };
    Some(first + usize::from(subject) - 1)
}

impl<'a> RowBook<'a> {
    /// The book that the masks stand for.
    pub fn new(masks: &'a mut [u16; 632]) -> RowBook<'a>
        ensures { result.masks.now ≡ masks.old }
    {
        RowBook { masks }
    }

    /// Hands the book that the masks stand for to its user; fewer than 632 are refused, and left as they are.
    pub fn lend<U: BookUser + Drop>(masks: &mut [u16], user: U) -> Result<U::Answer, SealFault>
        ensures refusal { Refused result → masks.new ≡ masks.old }
        ensures answer { Lent 632 (length masks.old) (U.BookUser.answers user) result }
    {
        if masks.len() < ROWS {
            return Err(SealFault::Short);
        }
        Ok(user.run(RowBook { masks }))
    }
}

impl<'a> TryFrom<&'a mut [u16]> for RowBook<'a> {
    type Error = ShortBuffer<'a, u16>;

    ghost try_from_gives = { λ masks. MakesBook 632 masks (λ book. book.masks.now ≡ masks.now) };

    /// The book that the masks stand for; fewer than 632 are handed back as they are.
    fn try_from(masks: &'a mut [u16]) -> Result<RowBook<'a>, ShortBuffer<'a, u16>> {
        if masks.len() >= ROWS {
            return Ok(RowBook { masks });
        }
        Err(ShortBuffer { buffer: masks })
    }
}

impl<'a> SealView for RowBook<'a> {
    ghost held = { λ x. row_holds x.masks.now };

    ghost inside = { λ x. row_inside x.masks.now };

    fn asked(&self, kind: u8, seat: u8, subject: u16) -> bool {
        row_at(kind, subject).is_some_and(|at| seat < 13 && self.masks[at].has(seat))
    }

    fn count(&self, kind: u8, subject: u16) -> u8 {
        row_at(kind, subject).map_or(0, |at| mask::size(self.masks[at]))
    }
}

impl<'a> SealBook for RowBook<'a> {
    fn clear(&mut self) {
        self.masks[..ROWS].fill(0);
    }

    fn seal(&mut self, kind: u8, seat: u8, subject: u16) -> bool {
        let Some(at) = row_at(kind, subject) else {
            return false;
        };
        let old = self.masks[at];
        if seat >= 13 || old.has(seat) {
            return false;
        }
        self.masks[at] = old.with(seat);
        true
    }
}
