// The struct alone: what its fact imports must not name it.
ghost use Rattle.std.specs.Prelude.{◌≡◌, true, map};
ghost use Rattle.fifo.specs.Bounded.{items};
ghost use Rattle.items.specs.Item.{item_of};
ghost use Rattle.item_table.specs.Rising.{rising};

use fifo::bounded::BoundedList;
use items::item::MonitoredItem;

pub mod methods;
pub mod turns;

// At most 32 items, by rising id.
#[derive(Clone, Copy)]
pub struct ItemTable {
    rows: BoundedList<MonitoredItem, 32>,
    ghost ordered: { rising (map item_of (items rows)) ≡ true },
}
