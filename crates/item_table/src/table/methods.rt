ghost use Rattle.std.specs.Prelude.{◌≡◌, ◌<◌, true, false, [], ◌∷◌, ◌++◌, map, length, ◌==◌};
ghost use Rattle.std.specs.Option.{option_map};
ghost use Rattle.fifo.specs.Lists.{replaced, without};
ghost use Rattle.items.specs.Item.{item_of, ticked};
ghost use Rattle.items.specs.Keys.{id_of};
ghost use Rattle.item_table.specs.Table.{items_of, all_below, item_in, others};

use crate::table::ItemTable;
use fifo::bounded::BoundedList;
use items::item::{Identity, Mode, MonitoredItem, Settings};
use sources::source::Source;
use values::checked::CheckedFilter;
use values::filter::{Deadband, Filter, Trigger};
use values::value::Kind;

// What stands in the places that are not in use.
fn blank() -> MonitoredItem {
    let filter = Filter {
        trigger: Trigger::Status,
        deadband: Deadband::None,
        deadband_value: 0.0,
    };
    let settings = Settings {
        client_handle: 0,
        filter: CheckedFilter { filter },
        interval: 1,
        discard_oldest: true,
    };
    MonitoredItem::new(
        Identity {
            id: 0,
            subscription: 0,
            node: 0,
            kind: Kind::Boolean,
        },
        settings,
        1,
        Mode::Disabled,
    )
}

impl ItemTable {
    pub fn new() -> Self
        ensures { items_of result ≡ [] }
    {
        ItemTable {
            rows: BoundedList::with_blank(blank()),
        }
    }

    pub fn is_full(&self) -> bool
        ensures value { result ≡ (length (items_of self.now) == 32) }
        ensures room { result ≡ false → length (items_of self.now) < 32 }
    {
        self.rows.is_full()
    }

    // Adds an item whose id is above all others'.
    pub fn add(&mut self, item: MonitoredItem)
        requires room { length (items_of self.old) < 32 }
        requires above { all_below item.identity.id (items_of self.old) ≡ true }
        requires id { 0 < item.identity.id }
        ensures { items_of self.new ≡ items_of self.old ++ item_of item ∷ [] }
    {
        tables::push(&mut self.rows, item);
    }

    // The item with the id, where it is of the subscription.
    pub fn find(&self, subscription: u32, id: u32) -> Option<MonitoredItem>
        ensures { option_map item_of result ≡ item_in subscription id (items_of self.now) }
    {
        tables::get(&self.rows, id)
            .filter(|item| item.identity.subscription == subscription)
            .copied()
    }

    // Puts the item in the place of the one with its id.
    pub fn replace(&mut self, item: MonitoredItem)
        ensures { items_of self.new ≡ replaced id_of (item_of item) (items_of self.old) }
    {
        tables::replace(&mut self.rows, item);
    }

    pub fn remove(&mut self, id: u32)
        ensures { items_of self.new ≡ without id_of id (items_of self.old) }
    {
        tables::remove(&mut self.rows, id);
    }

    // Removes all items of the subscription.
    pub fn remove_all(&mut self, subscription: u32)
        ensures { items_of self.new ≡ others subscription (items_of self.old) }
    {
        self.rows
            .retain(|item| item.identity.subscription != subscription);
    }

    // The sampling pass of a tick, over any source.
    pub fn tick<S: Source>(&mut self, source: &S)
        ensures { items_of self.new ≡ map (ticked (S.Source.stands source.now)) (items_of self.old) }
    {
        self.rows.change_each(|item| item.tick(source));
    }
}
