// The queue functions and bounded lists at three kinds of record.
use fifo::bounded::BoundedList;
use fifo::queue;
use fifo::queue::Keyed;
use numbers::numbers::Numbers;
use std::test::Fail;

#[derive(Clone, Copy)]
struct Entry {
    id: u32,
}

impl Keyed for Entry {
    ghost tag = { λ e. e.id };

    fn key(&self) -> u32 {
        self.id
    }
}

#[derive(Clone, Copy)]
struct Pair {
    left: u32,
    right: u8,
}

#[test]
fn numbers(rt: HostRuntime) {
    let mut slots: [u32; 2] = [0; 2];
    queue::push(&mut slots, 0, 7);
    queue::push(&mut slots, 1, 8);
    assert_eq!(rt; queue::find(&slots, 2, 8), Some(1));
    assert_eq!(rt; queue::find(&slots, 1, 8), None);
    assert_eq!(rt; queue::pop(&mut slots, 2), Some(7));
    assert_eq!(rt; queue::remove(&mut slots, 1, 0), 8);
}

#[test]
fn number_list(rt: HostRuntime) {
    let mut numbers: BoundedList<u32, 2> = BoundedList::new();
    numbers.push(7);
    assert_eq!(rt; numbers.find(8), None);
    numbers.push(8);
    assert_eq!(rt; numbers.find(8), Some(1));
    assert_eq!(rt; numbers.pop(), Some(7));
    assert_eq!(rt; numbers.remove_at(0), 8);
    // The 8 still lies in a place that is not in use.
    numbers.push(7);
    assert_eq!(rt; numbers.find(8), None);
}

#[test]
fn entries(rt: HostRuntime) {
    let mut slots = [Entry { id: 0 }; 2];
    queue::push(&mut slots, 0, Entry { id: 5 });
    assert!(rt; queue::lookup(&slots, 1, 5).is_some());
    assert!(rt; queue::lookup(&slots, 1, 0).is_none());
    assert_eq!(rt; queue::remove(&mut slots, 1, 0).id, 5);
}

#[test]
fn entry_list(rt: HostRuntime) {
    let mut entries: BoundedList<Entry, 2> = BoundedList::with_blank(Entry { id: 0 });
    entries.push(Entry { id: 5 });
    assert!(rt; entries.lookup(5).is_some());
    assert!(rt; entries.lookup(0).is_none());
    assert_eq!(rt; entries.remove_at(0).id, 5);
}

#[test]
fn pairs(rt: HostRuntime) -> Result<(), Fail> {
    let mut slots = [Pair { left: 0, right: 0 }; 2];
    queue::push(&mut slots, 0, Pair { left: 1, right: 2 });
    queue::push(&mut slots, 1, Pair { left: 3, right: 4 });
    assert_eq!(rt; queue::pop(&mut slots, 2).ok_or("empty")?.right, 2);
    assert_eq!(rt; slots[0].left, 3);
    Ok(())
}

#[test]
fn pair_list(rt: HostRuntime) -> Result<(), Fail> {
    let mut pairs: BoundedList<Pair, 2> = BoundedList::with_blank(Pair { left: 0, right: 0 });
    pairs.push(Pair { left: 1, right: 2 });
    pairs.push(Pair { left: 3, right: 4 });
    assert_eq!(rt; pairs.pop().ok_or("empty")?.right, 2);
    assert_eq!(rt; pairs.front().ok_or("one is left")?.left, 3);
    Ok(())
}

#[test]
fn bounded(rt: HostRuntime) {
    let mut numbers = Numbers::new();
    numbers.push(4);
    numbers.push(9);
    let _ = numbers.remove(4);
    assert!(rt; !numbers.contains(4));
    assert_eq!(rt; numbers.pop(), Some(9));
    assert_eq!(rt; numbers.front(), None);
}
