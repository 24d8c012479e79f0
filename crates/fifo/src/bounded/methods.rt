ghost use Rattle.std.specs.Prelude.{◌≡◌, ◌+◌, ◌-◌, ◌<◌, ◌≤◌, ◌==◌, false, [], ◌∷◌, ◌++◌, length, take, drop, MatchOption, slice_index_or, slice_set};
ghost use Rattle.std.specs.List.{remove, slice_get};
ghost use Rattle.fifo.specs.Lists.{none, first, rest};
ghost use Rattle.fifo.specs.Bounded.{items};

use crate::bounded::BoundedList;
use crate::queue;

impl<T: Copy + Default, const N: usize> BoundedList<T, N> {
    // An empty list, of records that have a default.
    pub fn new() -> Self
        ensures { items result ≡ [] }
    {
        BoundedList::with_blank(T::default())
    }
}

impl<T: Copy, const N: usize> BoundedList<T, N> {
    // An empty list; the record serves to fill its places.
    pub fn with_blank(blank: T) -> Self
        ensures { items result ≡ [] }
    {
        BoundedList {
            places: [blank; N],
            len: 0,
        }
    }

    pub fn as_slice(&self) -> &[T]
        ensures value { result.now ≡ items self.now }
        ensures bound { length result.now ≤ N }
    {
        &self.places[..self.len]
    }

    pub fn len(&self) -> usize
        ensures value { result ≡ length (items self.now) }
        ensures bound { result ≤ N }
    {
        self.as_slice().len()
    }

    pub fn is_empty(&self) -> bool
        ensures { result ≡ none (items self.now) }
    {
        self.len() == 0
    }

    pub fn is_full(&self) -> bool
        ensures value { result ≡ (length (items self.now) == N) }
        ensures room { result ≡ false → length (items self.now) < N }
    {
        self.len() == N
    }

    // The first record.
    pub fn front(&self) -> Option<T>
        ensures { result ≡ first (items self.now) }
    {
        self.as_slice().first().copied()
    }

    // One more at the end.
    pub fn push(&mut self, x: T)
        requires { length (items self.old) < N }
        ensures { items self.new ≡ items self.old ++ x ∷ [] }
    {
        queue::push(&mut self.places, self.len, x);
        self.len += 1;
    }

    // Puts a record at place `i`.
    pub fn set(&mut self, i: usize, x: T)
        requires { i < length (items self.old) }
        ensures { items self.new ≡ slice_set (items self.old) i x }
    {
        self.places[i] = x;
    }

    // Takes out the record at place `i`; those behind it move up.
    pub fn remove_at(&mut self, i: usize) -> T
        requires { i < length (items self.old) }
        ensures value { result ≡ slice_index_or (items self.old) i result }
        ensures after { items self.new ≡ remove (items self.old) i }
    {
        let x = queue::remove(&mut self.places, self.len, i);
        self.len -= 1;
        x
    }

    // Takes out the first record.
    pub fn pop(&mut self) -> Option<T>
        ensures value { result ≡ first (items self.old) }
        ensures after { items self.new ≡ rest (items self.old) }
        ensures len { MatchOption result (length (items self.old) ≡ 0)
            (λ _. length (items self.new) + 1 ≡ length (items self.old)) }
    {
        let x = queue::pop(&mut self.places, self.len)?;
        self.len -= 1;
        Some(x)
    }

    pub fn clear(&mut self)
        ensures { items self.new ≡ [] }
    {
        self.len = 0;
    }

    // The last `n` records stay.
    pub fn keep_last(&mut self, n: usize)
        requires { n ≤ length (items self.old) }
        ensures { items self.new ≡ drop (length (items self.old) - n) (items self.old) }
    {
        self.places.copy_within(self.len - n..self.len, 0);
        self.len = n;
    }
}
