// The same functions over the first `len` places of a slice, for callers whose records lie in no bounded list.
ghost use Rattle.std.specs.Prelude.{◌≡◌, ◌+◌, ◌<◌, ◌≤◌, [], ◌∷◌, ◌++◌, map, length, take, slice_index_or, slice_set};
ghost use Rattle.std.specs.Option.{option_map};
ghost use Rattle.fifo.specs.Lists.{lookup, replaced, without};

use crate::Row;
use fifo::queue;

// The places in use.
pub fn in_use<T: Row>(places: &[T], len: usize) -> &[T]
    requires { len ≤ length places.now }
    ensures value { result.now ≡ take len places.now }
    ensures count { length result.now ≡ length (map T.Row.plain (take len places.now)) }
    ensures bound { length result.now ≡ len }
{
    &places[0..len]
}

// The record at place `i`.
pub fn at<T: Row>(places: &[T], len: usize, i: usize) -> T
    requires within { i < length (map T.Row.plain (take len places.now)) }
    requires fits { len ≤ length places.now }
    ensures { (d : T.Row.Plain) → T.Row.plain result ≡ slice_index_or (map T.Row.plain (take len places.now)) i d }
{
    in_use(places, len)[i]
}

// Puts a record at place `i`.
pub fn put<T: Row>(places: &mut [T], len: usize, i: usize, row: T)
    requires within { i < length (map T.Row.plain (take len places.old)) }
    requires fits { len ≤ length places.old }
    ensures { map T.Row.plain (take len places.new) ≡ slice_set (map T.Row.plain (take len places.old)) i (T.Row.plain row) }
{
    places[i] = row;
}

// One more at the end.
pub fn push<T: Row>(places: &mut [T], len: usize, row: T)
    requires { len < length places.old }
    ensures { map T.Row.plain (take (len + 1) places.new) ≡ map T.Row.plain (take len places.old) ++ T.Row.plain row ∷ [] }
{
    queue::push(places, len, row);
}

// The record with this key.
pub fn lookup<T: Row>(places: &[T], len: usize, key: u32) -> Option<T>
    requires { len ≤ length places.now }
    ensures { option_map T.Row.plain result ≡ lookup T.Row.key_of key (map T.Row.plain (take len places.now)) }
{
    queue::lookup(places, len, key)
}

// The record with this key, where it lies.
pub fn get<T: Row>(places: &[T], len: usize, key: u32) -> Option<&T>
    requires { len ≤ length places.now }
    ensures { option_map (λ x. T.Row.plain x.now) result ≡ lookup T.Row.key_of key (map T.Row.plain (take len places.now)) }
{
    let place = queue::find(places, len, key)?;
    Some(&places[place])
}

// Puts a record in the place of the one with its key, if there is one.
pub fn replace<T: Row>(places: &mut [T], len: usize, row: T)
    requires { len ≤ length places.old }
    ensures { map T.Row.plain (take len places.new) ≡ replaced T.Row.key_of (T.Row.plain row) (map T.Row.plain (take len places.old)) }
{
    if let Some(place) = queue::find(places, len, row.key()) {
        places[place] = row;
    }
}

// Takes out the record with this key, if there is one; how many are left.
pub fn remove<T: Row>(places: &mut [T], len: usize, key: u32) -> usize
    requires { len ≤ length places.old }
    ensures after { map T.Row.plain (take result places.new) ≡ without T.Row.key_of key (map T.Row.plain (take len places.old)) }
    ensures bound { result ≤ len }
{
    let Some(place) = queue::find(places, len, key) else {
        return len;
    };
    let _ = queue::remove(places, len, place);
    len - 1
}
