//! The entry lines.
ghost use Rattle.std.specs.Prelude.{◌≡◌, ℕ, ◌+◌};
ghost use Rattle.basics.specs.Elements.{elements};
ghost use Rattle.model.specs.Setup.{Plan as Model};
ghost use Rattle.lines.specs.Reading.{line_now, IsLast};
ghost use Rattle.frames.specs.Shape.{shape};
ghost use Rattle.page.specs.Reading.{behind, coming};
ghost use Rattle.page.specs.Run.{placed as place_of, collected, opened, with_entry, entry_refusals};

use crate::fault::{PageFault, refused_at};
use crate::lists::{EntryTable, RefusalList};
use crate::types::{PageEntry, Place, Sort};
use frames::decode::decode;
use frames::frame::Frame;
use lines::line::Line;
use lines::reader::Reader;
use plans::fault::PlanFault;

/// What a line is in the place of an entry line.
fn placed(sort: Sort, frame: Option<Frame>) -> Place
    ensures { result ≡ place_of sort (shape frame.entry) }
{
    match (sort, frame) {
        (Sort::Cards, Some(Frame::Card(card))) => Place::Entry(PageEntry::Card(card)),
        (Sort::Slips, Some(Frame::Slip(slip))) => Place::Entry(PageEntry::Slip(slip)),
        (_, Some(Frame::Call(_))) => Place::Closes,
        _ => Place::Misplaced,
    }
}

/// Takes an entry into the table, or lists that it is full.
fn take_entry(entries: &mut EntryTable, entry: PageEntry, line: u16, refusals: &mut RefusalList)
    ensures entries { elements entries.new ≡ with_entry (elements entries.old) entry }
    ensures refusals { elements refusals.new ≡ entry_refusals (elements entries.old) line (elements refusals.old) }
{
    if !entries.push(entry) {
        refusals.push(refused_at(line, PageFault::Plan(PlanFault::ManyEntries)));
    }
}

/// Takes the entry lines, up to the first call: the line of that, if there is one.
pub(crate) fn fill_entries(
    sort: Sort,
    reader: &mut Reader,
    entries: &mut EntryTable,
    refusals: &mut RefusalList,
) -> Option<Line>
    ensures all { (p : Model) →
        collected sort p (elements entries.old) (line_now reader.old + 1) (elements refusals.old) (behind reader.old)
        ≡ opened p (elements entries.new) (line_now reader.new) (elements refusals.new) (coming result reader.new) }
    ensures last { IsLast result reader.new }
{
    while let Some(line) = reader.next() {
        match placed(sort, decode(line.bytes())) {
            Place::Entry(entry) => take_entry(entries, entry, line.number(), refusals),
            Place::Closes => return Some(line),
            Place::Misplaced => {
                refusals.push(refused_at(line.number(), PageFault::Malformed));
            }
        }
    }
    None
}
