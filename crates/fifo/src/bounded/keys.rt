ghost use Rattle.std.specs.Prelude.{◌≡◌, ◌<◌, length, IfSome, is_some};
ghost use Rattle.std.specs.Option.{option_map};
ghost use Rattle.fifo.specs.Lists.{position, lookup, replaced, without};
ghost use Rattle.fifo.specs.Bounded.{items};

use crate::bounded::BoundedList;
use crate::keyed::Keyed;

impl<T: Keyed, const N: usize> BoundedList<T, N> {
    // The place of the first record with this key.
    pub fn find(&self, key: u32) -> Option<usize>
        ensures value { result ≡ position T.Keyed.tag key (items self.now) }
        ensures bound { IfSome result (λ i. i < length (items self.now)) }
    {
        self.as_slice().iter().position(|x| x.key() == key)
    }

    // The first record with this key, where it lies.
    pub fn get(&self, key: u32) -> Option<&T>
        ensures { option_map (λ x. x.now) result ≡ lookup T.Keyed.tag key (items self.now) }
    {
        let place = self.find(key)?;
        Some(&self.places[place])
    }

    // The first record with this key.
    pub fn lookup(&self, key: u32) -> Option<T>
        ensures { result ≡ lookup T.Keyed.tag key (items self.now) }
    {
        self.get(key).copied()
    }

    pub fn contains(&self, key: u32) -> bool
        ensures { result ≡ is_some (lookup T.Keyed.tag key (items self.now)) }
    {
        self.get(key).is_some()
    }

    // Puts a record in the place of the first one with its key, if there is one.
    pub fn replace(&mut self, x: T)
        ensures { items self.new ≡ replaced T.Keyed.tag x (items self.old) }
    {
        if let Some(i) = self.find(x.key()) {
            self.set(i, x);
        }
    }

    // Takes out the first record with this key, if there is one.
    pub fn remove(&mut self, key: u32) -> Option<T>
        ensures value { result ≡ lookup T.Keyed.tag key (items self.old) }
        ensures after { items self.new ≡ without T.Keyed.tag key (items self.old) }
    {
        let i = self.find(key)?;
        Some(self.remove_at(i))
    }
}
