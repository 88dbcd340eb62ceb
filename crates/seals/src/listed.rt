//! The seal book that lists its seals, oldest first.
ghost use Rattle.std.specs.Prelude.{◌≡◌, ◌≤◌, true, not, ◌==◌, ◌&&◌, [], ◌∷◌, ◌++◌, count_by, length, if◌then◌else◌};
ghost use Rattle.basics.specs.Contents.{contents, room};
ghost use Rattle.seals.specs.Lending.{Lent, MakesBook, Refused};
ghost use Rattle.seals.specs.Listed.{listed, list_holds, list_inside, sound};
ghost use Rattle.seals.specs.Seals.{allowed, added};

use crate::book::{BookUser, SealBook, SealView};
use crate::fault::{SealFault, ShortBuffer};
use crate::record::SealRecord;
use basics::list::BoundedList;

/// A book in the caller's memory. It has room for every seal that there can be, since none is listed twice.
#[derive(Drop)]
pub struct ListedBook<'a> {
    records: BoundedList<'a, SealRecord>,
    ghost big: { 8216 ≤ room records },
    ghost good: { sound (contents records) ≡ true },
}

impl<'a> ListedBook<'a> {
    /// An empty book, with room for every seal that there can be.
    pub fn new(records: &'a mut [SealRecord; 8216]) -> ListedBook<'a>
        ensures { contents result.records ≡ [] }
    {
        let list = BoundedList::new(records);
        ListedBook { records: list }
    }

    /// Hands an empty book over the buffer to its user; room for fewer than 8,216 is refused, and left as it is.
    pub fn lend<U: BookUser + Drop>(
        records: &mut [SealRecord],
        user: U,
    ) -> Result<U::Answer, SealFault>
        ensures refusal { Refused result → records.new ≡ records.old }
        ensures answer { Lent 8216 (length records.old) (U.BookUser.answers user) result }
    {
        if records.len() < 8216 {
            return Err(SealFault::Short);
        }
        Ok(user.run(ListedBook {
            records: BoundedList::new(records),
        }))
    }
}

impl<'a> TryFrom<&'a mut [SealRecord]> for ListedBook<'a> {
    type Error = ShortBuffer<'a, SealRecord>;

    ghost try_from_gives = { λ records. MakesBook 8216 records (λ book. contents book.records ≡ []) };

    /// An empty book, with the buffer's room; a buffer for fewer than 8,216 seals is handed back as it is.
    fn try_from(
        records: &'a mut [SealRecord],
    ) -> Result<ListedBook<'a>, ShortBuffer<'a, SealRecord>> {
        if records.len() >= 8216 {
            return Ok(ListedBook {
                records: BoundedList::new(records),
            });
        }
        Err(ShortBuffer { buffer: records })
    }
}

/// Whether the list has the record.
fn lists(records: &[SealRecord], wanted: SealRecord) -> bool
    ensures { result ≡ listed records.now wanted.kind wanted.seat wanted.subject }
{
    records
        .iter()
        .any(|x| x.is_of(wanted.kind, wanted.seat, wanted.subject))
}

/// How many records of the list have the kind and the subject.
fn count_of(records: &[SealRecord], kind: u8, subject: u16) -> usize
    ensures { result ≡ count_by (λ x. x.kind == kind && x.subject == subject) records.now }
{
    records
        .iter()
        .filter(|x| x.kind == kind && x.subject == subject)
        .count()
}

impl<'a> SealView for ListedBook<'a> {
    ghost held = { λ x. list_holds (contents x.records) };

    ghost inside = { λ x. list_inside (contents x.records) };

    fn asked(&self, kind: u8, seat: u8, subject: u16) -> bool {
        let record = SealRecord {
            kind,
            seat,
            subject,
        };
        record.is_allowed() && lists(self.records.as_slice(), record)
    }

    fn count(&self, kind: u8, subject: u16) -> u8 {
        count_of(self.records.as_slice(), kind, subject) as u8
    }
}

impl<'a> SealBook for ListedBook<'a> {
    fn clear(&mut self) {
        self.records.clear();
    }

    fn seal(&mut self, kind: u8, seat: u8, subject: u16) -> bool
        ensures answer { result ≡ (allowed kind seat subject && not (list_holds (contents self.old.records) kind seat subject)) }
        ensures after { list_holds (contents self.new.records) ≡ added kind seat subject (list_holds (contents self.old.records)) }
        ensures order { contents self.new.records ≡ (if result then (contents self.old.records ++ record { kind = kind; seat = seat; subject = subject } ∷ []) else contents self.old.records) }
    {
        let record = SealRecord {
            kind,
            seat,
            subject,
        };
        if !record.is_allowed() || lists(self.records.as_slice(), record) {
            return false;
        }
        self.records.push(record)
    }
}
