//! What the program is asked to do.
use page::types::Sort;
use std::error::Error;
use std::fmt;

/// The file of a paper, its sort, and whether its record is wanted as frames.
#[derive(Clone, Copy)]
pub struct Request<'a> {
    pub frames: bool,
    pub sort: Sort,
    pub file: &'a str,
}

/// The words that the program was called with ask for nothing.
#[derive(Clone, Copy, Debug)]
pub struct Usage;

impl fmt::Display for Usage {
    fn fmt<W: fmt::Write>(&self, f: &mut fmt::Formatter<W>) -> fmt::Result {
        write!(f, "usage: examine [--frames] card|slip FILE")
    }
}

impl Error for Usage {}

// the sort of hall that a word names
fn sort_named(word: &str) -> Option<Sort> {
    match word {
        "card" => Some(Sort::Cards),
        "slip" => Some(Sort::Slips),
        _ => None,
    }
}

impl<'a> TryFrom<&'a [String]> for Request<'a> {
    type Error = Usage;

    fn try_from(words: &'a [String]) -> Result<Request<'a>, Usage> {
        let mut named = words.iter().filter(|word| word.as_str() != "--frames");
        let (Some(hall), Some(file), None) = (named.next(), named.next(), named.next()) else {
            return Err(Usage);
        };
        Ok(Request {
            frames: words.iter().any(|word| word.as_str() == "--frames"),
            sort: sort_named(hall.as_str()).ok_or(Usage)?,
            file: file.as_str(),
        })
    }
}
