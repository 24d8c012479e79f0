ghost use Rattle.std.specs.Prelude.{◌≡◌, ◌<◌, ◌≤◌, length, take};
ghost use Rattle.fifo.specs.Bounded.{items};
ghost use Rattle.fifo.specs.Changes.{ChangedAt, EachChanged, Retained};

use crate::bounded::BoundedList;

// Over a slice, since a place of an array is not lent where ghost fields stand beside it.
fn change<T, R, F: FnOnce(&mut T) -> R>(places: &mut [T], i: usize, f: F) -> R
    requires within { i < length places.old }
    requires callable { F.IsAlwaysCallable f }
    ensures { ChangedAt F.FnOnce f places.old i result places.new }
{
    let place = &mut places[i];
    f(place)
}

// Changes each of the first `len` records: over a slice for the same reason.
fn change_each<T, F: Fn(&mut T)>(places: &mut [T], len: usize, f: F)
    requires fits { len ≤ length places.old }
    requires callable { F.IsAlwaysCallable f }
    ensures { EachChanged F.Fn f (take len places.old) (take len places.new) }
{
    for place in &mut places[..len] {
        f(place);
    }
}

impl<T: Copy, const N: usize> BoundedList<T, N> {
    // Changes the record at place `i` where it lies.
    pub fn change<R, F: FnOnce(&mut T) -> R>(&mut self, i: usize, f: F) -> R
        requires within { i < length (items self.old) }
        requires callable { F.IsAlwaysCallable f }
        ensures { ChangedAt F.FnOnce f (items self.old) i result (items self.new) }
    {
        change(&mut self.places, i, f)
    }

    // Changes each record where it lies.
    pub fn change_each<F: Fn(&mut T)>(&mut self, f: F)
        requires { F.IsAlwaysCallable f }
        ensures { EachChanged F.Fn f (items self.old) (items self.new) }
    {
        change_each(&mut self.places, self.len, f);
    }

    // The records that the test passes stay, in order. By index, since they move up within the array: a copy of the list to go
    // over would cost all `N` places at each call, however few are in use.
    pub fn retain<F: Fn(&T) -> bool>(&mut self, keep: F)
        requires { F.IsAlwaysCallable keep }
        ensures { Retained F.Fn keep (items self.old) (items self.new) }
    {
        let mut kept = 0;
        for i in 0..self.len {
            let x = self.places[i];
            if keep(&x) {
                self.places[kept] = x;
                kept += 1;
            }
        }
        self.len = kept;
    }
}
