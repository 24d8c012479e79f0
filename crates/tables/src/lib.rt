// Bounded lists of records that a model sees without their facts, each record with a key. The functions hand on to the lists'
// methods: what they promise is said of the plain data, which the lists know nothing of.
#![tactic(auto)]

pub mod places;

ghost use Rattle.std.specs.Prelude.{◌≡◌, ℕ, ◌<◌, ◌≤◌, [], ◌∷◌, ◌++◌, map, length, slice_index_or, slice_set};
ghost use Rattle.std.specs.Option.{option_map};
ghost use Rattle.fifo.specs.Lists.{lookup, replaced, without};
ghost use Rattle.fifo.specs.Bounded.{items};

use fifo::bounded::BoundedList;
use fifo::keyed::Keyed;

// A record with its plain data, as the model has it, and the key of those.
pub trait Row: Keyed {
    ghost Plain: { Type 0 };

    ghost plain: { Self → Plain };

    ghost key_of: { Plain → ℕ };

    // The record's key is the key of its data.
    ghost keyed: { (r : Self) → Self.Keyed.tag r ≡ key_of (plain r) };
}

// The records.
pub fn in_use<T: Row, const N: usize>(rows: &BoundedList<T, N>) -> &[T]
    ensures value { result.now ≡ items rows.now }
    ensures count { length result.now ≡ length (map T.Row.plain (items rows.now)) }
    ensures bound { length result.now ≤ N }
{
    rows.as_slice()
}

// The record at place `i`.
pub fn at<T: Row, const N: usize>(rows: &BoundedList<T, N>, i: usize) -> T
    requires { i < length (map T.Row.plain (items rows.now)) }
    ensures { (d : T.Row.Plain) → T.Row.plain result ≡ slice_index_or (map T.Row.plain (items rows.now)) i d }
{
    in_use(rows)[i]
}

// Puts a record at place `i`.
pub fn put<T: Row, const N: usize>(rows: &mut BoundedList<T, N>, i: usize, row: T)
    requires { i < length (map T.Row.plain (items rows.old)) }
    ensures { map T.Row.plain (items rows.new) ≡ slice_set (map T.Row.plain (items rows.old)) i (T.Row.plain row) }
{
    rows.set(i, row);
}

// One more at the end.
pub fn push<T: Row, const N: usize>(rows: &mut BoundedList<T, N>, row: T)
    requires { length (map T.Row.plain (items rows.old)) < N }
    ensures { map T.Row.plain (items rows.new) ≡ map T.Row.plain (items rows.old) ++ T.Row.plain row ∷ [] }
{
    rows.push(row);
}

// The record with this key.
pub fn lookup<T: Row, const N: usize>(rows: &BoundedList<T, N>, key: u32) -> Option<T>
    ensures { option_map T.Row.plain result ≡ lookup T.Row.key_of key (map T.Row.plain (items rows.now)) }
{
    rows.lookup(key)
}

// The record with this key, where it lies.
pub fn get<T: Row, const N: usize>(rows: &BoundedList<T, N>, key: u32) -> Option<&T>
    ensures { option_map (λ x. T.Row.plain x.now) result ≡ lookup T.Row.key_of key (map T.Row.plain (items rows.now)) }
{
    rows.get(key)
}

// Puts a record in the place of the one with its key, if there is one.
pub fn replace<T: Row, const N: usize>(rows: &mut BoundedList<T, N>, row: T)
    ensures { map T.Row.plain (items rows.new) ≡ replaced T.Row.key_of (T.Row.plain row) (map T.Row.plain (items rows.old)) }
{
    rows.replace(row);
}

// Takes out the record with this key, if there is one.
pub fn remove<T: Row, const N: usize>(rows: &mut BoundedList<T, N>, key: u32)
    ensures { map T.Row.plain (items rows.new) ≡ without T.Row.key_of key (map T.Row.plain (items rows.old)) }
{
    let _ = rows.remove(key);
}
