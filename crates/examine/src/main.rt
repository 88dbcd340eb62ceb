//! Examines a paper: `examine [--frames] card|slip FILE` prints its record, in words or as frames.
#![tactic(auto)]

ghost use Rattle.std.specs.Prelude.{◌≡◌, length};
ghost use Rattle.page.specs.Run.{answer, buffer_after};

use anyhow::bail;
use halls::{card_hall, slip_hall};
use page::types::Sort;
use request::Request;
use std::str::from_utf8;
use std::{env, fs};

mod request;
mod words;

// the record of a submission, in the first bytes of the buffer, and the answer of the hall
fn examined(sort: Sort, submission: &[u8], output: &mut [u8]) -> u32
    ensures buffer { output.new ≡ buffer_after sort submission.now output.old }
    ensures answer { result ≡ answer sort submission.now (length output.old) }
{
    match sort {
        Sort::Cards => card_hall(submission, output),
        Sort::Slips => slip_hall(submission, output),
    }
}

fn run(rt: &HostRuntime) -> anyhow::Result<()> {
    let words: Vec<String> = env::args(rt)?.skip(1).collect(rt.alloc())?;
    let asked = Request::try_from(words.as_slice())?;
    let Ok(submission) = fs::read(rt, asked.file) else {
        bail!("the file cannot be read");
    };
    let mut buffer = [0; 2048];
    let length = examined(asked.sort, submission.as_slice(), &mut buffer);
    let Some(bytes) = buffer.get(..length as usize) else {
        bail!("the paper is longer than 65,535 bytes");
    };
    let record = from_utf8(bytes)?;
    if asked.frames {
        rt.print(record)?;
    } else {
        words::print_record(rt, record)?;
    }
    Ok(())
}

fn main(rt: HostRuntime) -> anyhow::Result<()> {
    run(&rt)
}
