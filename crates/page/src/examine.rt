//! A whole submission.
ghost use Rattle.std.specs.Prelude.{◌≡◌, ℕ, ◌+◌, ◌<◌, ◌≤◌, List, [], length, MatchResult};
ghost use Rattle.plans.specs.Planned.{model};
ghost use Rattle.lines.specs.Writing.{Fills};
ghost use Rattle.lines.specs.Reading.{line_now};
ghost use Rattle.page.specs.Reading.{behind};
ghost use Rattle.page.specs.Journals.{RunsKept};
ghost use Rattle.page.specs.Record.{only};
ghost use Rattle.page.specs.Run.{page as page_of, run, answer, buffer_after, collected};

use crate::entry_table::fill_entries;
use crate::fault::{PageFault, refused_at};
use crate::first::judge;
use crate::lists::{EntryTable, RefusalList};
use crate::ranks::slip_plan;
use crate::run::run_calls;
use crate::types::{PageEntry, Sort, Start};
use crate::writing::{put_only, put_record};
use entries::card::Card;
use frames::decode::decode;
use hall::hall::Hall;
use lines::reader::Reader;
use plans::plan::Plan;
use records::refusal::Refusal;
use seals::book::{SealBook, SealView};

/// The plan that the first lines make, or the refusal that ends the run.
fn read_plan(sort: Sort, reader: &mut Reader) -> Result<Plan, Refusal>
    requires { line_now reader.old ≡ 0 }
    ensures { MatchResult result
        (λ p. run sort (behind reader.old) ≡ collected sort (model p) [] (line_now reader.new + 1) [] (behind reader.new))
        (λ f. run sort (behind reader.old) ≡ only f) }
{
    let line = reader.next().ok_or(refused_at(1, PageFault::Malformed))?;
    let start = judge(decode(line.bytes())).map_err(|fault| refused_at(1, fault))?;
    match sort {
        Sort::Cards => {
            let Start { setup: _, plan } = start;
            Ok(plan)
        }
        Sort::Slips => slip_plan(start, reader),
    }
}

/// The lines after those that fix the plan.
fn run_hall<B: SealBook + Drop>(
    sort: Sort,
    book: B,
    planned: Plan,
    reader: &mut Reader,
    out: &mut [u8; 2048],
) -> usize
    ensures { Fills out.old (collected sort (model planned) [] (line_now reader.old + 1) [] (behind reader.old)) out.new result }
{
    let mut plan = planned;
    let no_entries = [PageEntry::Card(Card { store: 0, find: 0 }); 128];
    let mut entries = EntryTable::from_array(no_entries, 0);
    let mut refusals = RefusalList::empty();
    let at_hand = fill_entries(sort, reader, &mut entries, &mut refusals);
    let _ = plan.set_entries(entries.as_slice());
    let mut hall = Hall::open(plan, book);
    let counts = run_calls(&mut hall, at_hand, reader, &mut refusals);
    put_record(out, &hall, &refusals, counts)
}

/// A submission that is not too long.
fn run_page<B: SealBook + Drop>(
    sort: Sort,
    book: B,
    submission: &[u8],
    out: &mut [u8; 2048],
) -> usize
    requires { length submission.now ≤ 65535 }
    ensures { Fills out.old (page_of sort submission.now) out.new result }
{
    let mut reader = Reader::new(submission);
    match read_plan(sort, &mut reader) {
        Err(refusal) => put_only(out, refusal),
        Ok(plan) => run_hall(sort, book, plan, &mut reader, out),
    }
}

/// Runs a submission in a hall of one sort and writes its record. It answers the length written, or 1,000,000 and the number of the refusal: 24
/// for a submission above 65,535 bytes, 4 for an output buffer below 2,048.
pub fn examine<B: SealBook + Drop>(sort: Sort, book: B, submission: &[u8], output: &mut [u8]) -> u32
    ensures buffer { output.new ≡ buffer_after sort submission.now output.old }
    ensures journal { RunsKept }
    ensures answer { result ≡ answer sort submission.now (length output.old) }
{
    if submission.len() > 65_535 {
        return 1_000_024;
    }
    let Some(out) = output.first_chunk_mut() else {
        return 1_000_004;
    };
    run_page(sort, book, submission, out) as u32
}
