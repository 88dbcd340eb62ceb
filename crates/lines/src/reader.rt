//! A text that is read line by line.
ghost use Rattle.std.specs.Prelude.{◌≡◌, ℕ, ◌+◌, ◌*◌, ◌<◌, ◌≤◌, ◌∷◌, length, take, drop, ◌==◌, position};
ghost use Rattle.lines.specs.Lines.{lines, leading_bytes, later};
ghost use Rattle.basics.specs.Elements.{elements};

use crate::hex::pair;
use crate::line::Line;
use basics::inline_list::InlineList;

/// What is left of a text, and the number of lines before it.
#[derive(Drop)]
pub struct Reader<'a> {
    text: &'a [u8],
    line: u16,
    ghost few: { line + length text.now ≤ 65535 },
}

/// The bytes of the pairs of digits that a text begins with, at most 16, and the text behind them.
fn read_pairs(text: &[u8]) -> (InlineList<u8, 16>, &[u8])
    ensures bytes { elements result.0 ≡ leading_bytes 16 text.now }
    ensures behind { result.1.now ≡ drop (2 * length (leading_bytes 16 text.now)) text.now }
{
    // (an array and a count, and no list until the end: the count then stays in a register)
    let mut slots = [0; 16];
    let mut count = 0;
    let mut behind = text;
    while count < 16
        && let [x, y, rest @ ..] = behind
        && let Some(byte) = pair(*x, *y)
    {
        slots[count] = byte;
        count += 1;
        behind = rest;
    }
    (InlineList::from_array(slots, count), behind)
}

/// The place of the first line feed, if there is one.
fn feed_at(text: &[u8]) -> Option<usize>
    ensures { result ≡ position (λ c. c == 10) text.now }
{
    text.iter().position(|c| *c == b'\n')
}

/// What follows the first line feed: nothing where there is none.
fn behind_feed(text: &[u8]) -> &[u8]
    ensures { result.now ≡ later text.now }
{
    match feed_at(text) {
        Some(i) => &text[i + 1..],
        None => &[],
    }
}

/// The bytes of the first line of a text, none where it is malformed, and the text behind it.
fn read_line(text: &[u8]) -> (InlineList<u8, 16>, &[u8])
    requires { 0 < length text.now }
    ensures line { lines text.now ≡ elements result.0 ∷ lines result.1.now }
    ensures shorter { length result.1.now < length text.now }
{
    let (bytes, rest) = read_pairs(text);
    if let [b'\n', behind @ ..] = rest {
        return (bytes, behind);
    }
    (InlineList::empty(), behind_feed(rest))
}

impl<'a> Reader<'a> {
    ghost use Rattle.lines.specs.Reading.{left, line_now};

    /// A reader at the start of a text; it reads no further than 65,535 bytes.
    pub fn new(text: &'a [u8]) -> Reader<'a>
        ensures all { left result ≡ take 65535 text.now }
        ensures first { line_now result ≡ 0 }
    {
        let size = text.len().min(65_535);
        Reader {
            text: &text[..size],
            line: 0,
        }
    }

    /// How many lines were read.
    pub fn line(&self) -> u16
        ensures { result ≡ line_now self.now }
    {
        self.line
    }
}

impl<'a> Iterator for Reader<'a> {
    ghost use Rattle.std.specs.Iterator.{item_count};
    ghost use Rattle.lines.specs.Reading.{lines_left, Next};

    type Item = Line;

    ghost next_gives = { Next };

    ghost remaining = { item_count lines_left };

    fn next(&mut self) -> Option<Line> {
        if self.text.is_empty() {
            return None;
        }
        let (bytes, behind) = read_line(self.text);
        self.text = behind;
        self.line += 1;
        Some(Line {
            number: self.line,
            bytes,
        })
    }
}
