//! A bounded list over a lent slice, oldest element first.
ghost use Rattle.std.specs.Prelude.{◌≡◌, List, [], ◌∷◌, ◌++◌, length, if◌then◌else◌, nat_lt};
ghost use Rattle.basics.specs.Contents.{contents, room};

/// A list in the caller's memory: the first `len` elements of `items`.
#[derive(Drop)]
pub struct BoundedList<'a, T> {
    items: &'a mut [T],
    len: usize,
}

impl<'a, T: Copy> BoundedList<'a, T> {
    /// An empty list with room for as many elements as the buffer has.
    pub fn new(buffer: &'a mut [T]) -> BoundedList<'a, T>
        ensures empty { contents result ≡ [] }
        ensures space { room result ≡ length buffer.old }
    {
        BoundedList {
            items: buffer,
            len: 0,
        }
    }

    /// Adds x at the end and says yes, if there is room; otherwise changes nothing.
    pub fn push(&mut self, x: T) -> bool
        ensures answer { result ≡ nat_lt (length (contents self.old)) (room self.old) }
        ensures after { contents self.new ≡ (if result then contents self.old ++ x ∷ [] else contents self.old) }
        ensures space { room self.new ≡ room self.old }
    {
        if self.len >= self.items.len() {
            return false;
        }
        self.items[self.len] = x;
        self.len += 1;
        true
    }

    /// Takes all elements out.
    pub fn clear(&mut self)
        ensures after { contents self.new ≡ [] }
        ensures space { room self.new ≡ room self.old }
    {
        self.len = 0;
    }

    /// How many elements it has.
    pub fn len(&self) -> usize
        ensures { result ≡ length (contents self.now) }
    {
        self.len.min(self.items.len())
    }

    /// How many elements it has room for.
    pub fn capacity(&self) -> usize
        ensures { result ≡ room self.now }
    {
        self.items.len()
    }

    /// The elements, oldest first.
    pub fn as_slice(&self) -> &[T]
        ensures { result.now ≡ contents self.now }
    {
        &self.items[0..self.len()]
    }
}
