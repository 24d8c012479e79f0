ghost use Rattle.std.specs.Prelude.{◌≡◌, length};
ghost use Rattle.fifo.specs.Bounded.{items};
ghost use Rattle.messages.specs.Padded.{padded, counted};

use fifo::bounded::BoundedList;

// An array that begins with the list, and blanks behind it: every place of a message and a response is determined.
pub(crate) fn padded<T: Copy, const N: usize>(list: &BoundedList<T, N>, blank: T) -> [T; N]
    ensures value { result ≡ padded N blank (items list.now) }
    ensures shown { counted N (length (items list.now)) result ≡ items list.now }
{
    let slice = list.as_slice();
    let mut array = [blank; N];
    array[..slice.len()].copy_from_slice(slice);
    array
}
