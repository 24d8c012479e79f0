ghost use Rattle.items.specs.Item.{Item, item_of};
ghost use Rattle.items.specs.Keys.{id_of, id_of_item};
ghost use Rattle.std.proofs.Common.{rules};

use crate::item::MonitoredItem;
use fifo::keyed::Keyed;
use tables::Row;

impl Keyed for MonitoredItem {
    ghost tag = { id_of_item };

    fn key(&self) -> u32 {
        self.identity.id
    }
}

// The definitions see an item with its waiting samples as a list.
impl Row for MonitoredItem {
    ghost Plain = { Item };

    ghost plain = { item_of };

    ghost key_of = { id_of };

    ghost keyed = { Prim.search rules };
}
