//! The two halls as they are called from C: one exported function for each.
#![tactic(auto)]

ghost use Rattle.std.specs.Prelude.{◌≡◌, length};
ghost use Rattle.hall.specs.Answers.{TheLaw};
ghost use Rattle.page.specs.Run.{answer, buffer_after};
ghost use Rattle.page.specs.Journals.{RunsKept};
ghost use Rattle.page.specs.declared.types.Sort.TheVariants.{Cards, Slips};

/// Runs a submission in the card hall, with cards, the rotation and the row book, and writes its record. The answer is the length
/// written, or 1,000,000 and 24 for a submission above 65,535 bytes, or 1,000,000 and 4 for an output buffer below 2,048 bytes.
#[unsafe(no_mangle)]
pub extern "C" fn card_hall(submission: &[u8], output: &mut [u8]) -> u32
    ensures buffer { output.new ≡ buffer_after Cards submission.now output.old }
    ensures answer { result ≡ answer Cards submission.now (length output.old) }
    ensures journal { RunsKept }
    ensures law { TheLaw }
{
    halls::card_hall(submission, output)
}

/// Runs a submission in the slip hall, with slips, the table draw and the listed book, and writes its record. The answer is as that of
/// the card hall.
#[unsafe(no_mangle)]
pub extern "C" fn slip_hall(submission: &[u8], output: &mut [u8]) -> u32
    ensures buffer { output.new ≡ buffer_after Slips submission.now output.old }
    ensures answer { result ≡ answer Slips submission.now (length output.old) }
    ensures journal { RunsKept }
    ensures law { TheLaw }
{
    halls::slip_hall(submission, output)
}
