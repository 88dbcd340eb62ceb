//! The two halls: one function for each, from the bytes of a submission to those of its record.
#![tactic(auto)]

ghost use Rattle.std.specs.Prelude.{◌≡◌, length};
ghost use Rattle.hall.specs.Answers.{TheLaw};
ghost use Rattle.page.specs.Listing.{WorkedPages};
ghost use Rattle.page.specs.Run.{answer, buffer_after};
ghost use Rattle.page.specs.Journals.{RunsKept};
ghost use Rattle.page.specs.declared.types.Sort.TheVariants.{Cards, Slips};

use page::examine::examine;
use page::types::Sort;
use seals::listed::ListedBook;
use seals::record::SealRecord;
use seals::row::RowBook;

// The halls are two functions, since C calls each by a name of its own; what differs is the sort and the book over its memory.

/// Runs a submission in the card hall, with cards, the rotation and the row book, and writes its record. The answer is the length
/// written, or 1,000,000 and 24 for a submission above 65,535 bytes, or 1,000,000 and 4 for an output buffer below 2,048 bytes.
#[tactic(auto, using(model::proofs::Law::law_stands))]
pub fn card_hall(submission: &[u8], output: &mut [u8]) -> u32
    ensures buffer { output.new ≡ buffer_after Cards submission.now output.old }
    ensures answer { result ≡ answer Cards submission.now (length output.old) }
    ensures journal { RunsKept }
    ensures law { TheLaw }
{
    let mut masks = [0u16; 632];
    let book = RowBook::new(&mut masks);
    examine(Sort::Cards, book, submission, output)
}

/// Runs a submission in the slip hall, with slips, the table draw and the listed book, and writes its record. The answer is as that of
/// the card hall.
#[tactic(auto, using(model::proofs::Law::law_stands))]
pub fn slip_hall(submission: &[u8], output: &mut [u8]) -> u32
    ensures buffer { output.new ≡ buffer_after Slips submission.now output.old }
    ensures answer { result ≡ answer Slips submission.now (length output.old) }
    ensures journal { RunsKept }
    ensures law { TheLaw }
{
    let mut records = [SealRecord {
        kind: 0,
        seat: 0,
        subject: 0,
    }; 8216];
    let book = ListedBook::new(&mut records);
    examine(Sort::Slips, book, submission, output)
}

/// Pages that were worked out by hand come out of the definitions as they should: a whole small run, empty and cut submissions, setup
/// lines that end a run, and lines that do not.
#[tactic(auto, using(page::proofs::Worked::worked_pages))]
pub fn worked_pages() -> u8
    ensures { WorkedPages }
{
    0
}
