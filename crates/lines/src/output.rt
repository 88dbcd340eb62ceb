//! Lines put into an output buffer.
ghost use Rattle.std.specs.Prelude.{◌≡◌, ℕ, ◌+◌, ◌*◌, ◌<◌, ◌≤◌, [], ◌∷◌, length, slice_set};
ghost use Rattle.lines.specs.Output.{line, written, next_place};

use crate::hex::numeral;

/// Puts lines into a lent buffer, one behind the other from a place on. A line that does not fit is left out.
#[derive(Drop)]
pub struct LineWriter<'a> {
    buffer: &'a mut [u8],
    at: usize,
}

impl<'a> LineWriter<'a> {
    ghost use Rattle.lines.specs.Writing.{buffer_of, place_of, WritesInto, Puts};

    /// A writer whose first line goes to a place of the buffer.
    pub fn new(buffer: &'a mut [u8], at: usize) -> LineWriter<'a>
        ensures into { WritesInto result buffer.entry }
        ensures start { buffer_of result ≡ buffer.old }
        ensures place { place_of result ≡ at }
    {
        LineWriter { buffer, at }
    }

    /// Where the next line goes.
    pub fn place(&self) -> usize
        ensures { result ≡ place_of self.now }
    {
        self.at
    }

    /// Writes a character where there is room for it.
    fn push(&mut self, c: u8)
        requires { place_of self.old < length (buffer_of self.old) }
        ensures buffer { buffer_of self.new ≡ slice_set (buffer_of self.old) (place_of self.old) c }
        ensures next { place_of self.new ≡ place_of self.old + 1 }
        ensures same { self.new.buffer.ghost_name ≡ self.old.buffer.ghost_name }
    {
        let Self { buffer, at } = self;
        buffer[*at] = c;
        *at += 1;
    }

    /// Writes a line where it fits.
    fn write(&mut self, bytes: &[u8])
        requires { next_place (place_of self.old) bytes.now ≤ length (buffer_of self.old) }
        ensures buffer { buffer_of self.new ≡ written (buffer_of self.old) (place_of self.old) (line bytes.now) }
        ensures next { place_of self.new ≡ next_place (place_of self.old) bytes.now }
        ensures same { self.new.buffer.ghost_name ≡ self.old.buffer.ghost_name }
    {
        for b in bytes {
            self.push(numeral(*b / 16));
            self.push(numeral(*b % 16));
        }
        self.push(b'\n');
    }

    /// Puts bytes as a line, if it fits.
    pub fn put(&mut self, bytes: &[u8])
        ensures { Puts self.old self.new (bytes.now ∷ []) }
    {
        let room = self.buffer.len().saturating_sub(self.place());
        if 2 * bytes.len() < room {
            self.write(bytes);
        }
    }
}
