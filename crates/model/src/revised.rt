ghost use Rattle.std.specs.Prelude.{◌≡◌};
ghost use Rattle.items.specs.Item.{item_of};
ghost use Rattle.model.specs.Monitoring.{revised_of};

use items::item::MonitoredItem;
use subscriptions::parameters::RevisedSubscription;

// What a client is told of a new subscription.
#[derive(Clone, Copy, Debug, Default, PartialEq, Eq, PartialOrd, Ord, Hash)]
pub struct CreatedSubscription {
    pub id: u32,
    pub revised: RevisedSubscription,
}

// What a client is told of an item: its sampling interval in ticks and its queue size.
#[derive(Clone, Copy, Debug, Default, PartialEq, Eq, PartialOrd, Ord, Hash)]
pub struct RevisedItem {
    pub interval: u32,
    pub queue_size: u32,
}

// What a client is told of a new item.
#[derive(Clone, Copy, Debug, Default, PartialEq, Eq, PartialOrd, Ord, Hash)]
pub struct CreatedItem {
    pub id: u32,
    pub revised: RevisedItem,
}

impl RevisedItem {
    pub fn of(item: &MonitoredItem) -> Self
        ensures { result ≡ revised_of (item_of item.now) }
    {
        RevisedItem {
            interval: item.settings.interval,
            queue_size: item.queue.size(),
        }
    }
}
