// The struct alone: what its facts import must not name it.
ghost use Rattle.std.specs.Prelude.{◌≡◌, ◌≤◌, length, ⊤};

use std::alloc::AllocError;

pub mod changes;
pub mod keys;
pub mod methods;

// At most `N` records, in order: the first `len` places. It lies in the value itself and never allocates. A ghost field
// holds its bounds and not an `impl Model`, under which a list could not be copied.
#[derive(Copy)]
pub struct BoundedList<T, const N: usize> {
    places: [T; N],
    len: usize,
    ghost fits: { len ≤ N },
    ghost long: { length places ≡ N },
}

// By hand: `Clone` is not derived over a ghost field of a generic struct.
impl<T: Copy, const N: usize> Clone for BoundedList<T, N> {
    ghost is_clone = { λ x y. y ≡ x };

    ghost is_infallible = { λ _. ⊤ };

    fn clone(&self) -> Result<Self, AllocError> {
        Ok(*self)
    }
}
