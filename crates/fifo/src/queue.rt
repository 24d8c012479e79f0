// The queue functions, over a slice whose first `len` places are in use, the oldest first. They stand beside `BoundedList`, which
// asks more of its callers.
ghost use Rattle.std.specs.Prelude.{◌≡◌, ◌+◌, ◌-◌, ◌<◌, ◌≤◌, [], ◌∷◌, ◌++◌, length, take, IfSome, MatchOption, slice_index_or};
ghost use Rattle.std.specs.List.{remove};
ghost use Rattle.fifo.specs.Lists.{first, rest, position, lookup};

pub use crate::keyed::Keyed;

// One more at the end.
pub fn push<T: Copy>(slots: &mut [T], len: usize, x: T)
    requires { len < length slots.old }
    ensures { take (len + 1) slots.new ≡ take len slots.old ++ x ∷ [] }
{
    slots[len] = x;
}

// Takes out the one at `at`; those behind it move up.
pub fn remove<T: Copy>(slots: &mut [T], len: usize, at: usize) -> T
    requires within { at < len }
    requires fits { len ≤ length slots.old }
    ensures value { result ≡ slice_index_or (take len slots.old) at result }
    ensures after { take (len - 1) slots.new ≡ remove (take len slots.old) at }
{
    let x = slots[at];
    slots.copy_within(at + 1..len, at);
    x
}

// Takes out the oldest.
pub fn pop<T: Copy>(slots: &mut [T], len: usize) -> Option<T>
    requires { len ≤ length slots.old }
    ensures value { result ≡ first (take len slots.old) }
    ensures after { take (len - 1) slots.new ≡ rest (take len slots.old) }
    ensures bound { MatchOption result (len ≡ 0) (λ _. 0 < len) }
{
    if len == 0 {
        return None;
    }
    Some(remove(slots, len, 0))
}

// The place of the first record with this key. By index: an edit that passes over the first place then fails by the invariant.
pub fn find<T: Keyed>(slots: &[T], len: usize, key: u32) -> Option<usize>
    requires { len ≤ length slots.now }
    ensures value { result ≡ position T.Keyed.tag key (take len slots.now) }
    ensures bound { IfSome result (λ i. i < len) }
{
    for i in 0..len {
        if slots[i].key() == key {
            return Some(i);
        }
    }
    None
}

// The first record with this key.
pub fn lookup<T: Keyed>(slots: &[T], len: usize, key: u32) -> Option<T>
    requires { len ≤ length slots.now }
    ensures { result ≡ lookup T.Keyed.tag key (take len slots.now) }
{
    let i = find(slots, len, key)?;
    Some(slots[i])
}
