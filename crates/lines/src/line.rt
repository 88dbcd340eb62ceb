//! A line of a text, as it was read.
ghost use Rattle.std.specs.Prelude.{◌≡◌, ◌≤◌};

use basics::inline_list::InlineList;

/// A line: its number, from 1, and its bytes, none where it is malformed.
#[derive(Clone, Copy)]
pub struct Line {
    pub(crate) number: u16,
    pub(crate) bytes: InlineList<u8, 16>,
    ghost counted: { 1 ≤ number },
}

impl Line {
    ghost use Rattle.lines.specs.Reading.{line_number, held};

    /// Which line of its text it is, from 1.
    pub fn number(&self) -> u16
        ensures { result ≡ line_number self.now }
    {
        self.number
    }

    /// Its bytes.
    pub fn bytes(&self) -> &[u8]
        ensures { result.now ≡ held self.now }
    {
        self.bytes.as_slice()
    }
}
