ghost use Rattle.std.specs.Prelude.{◌≡◌, IfErr};
ghost use Rattle.std.specs.Option.{option_map};
ghost use Rattle.std.specs.Result.{result_ok};
ghost use Rattle.fifo.specs.Lists.{replaced};
ghost use Rattle.subscriptions.specs.Keys.{figures_of, id_of};
ghost use Rattle.subscriptions.specs.Changes.{named};
ghost use Rattle.subscription_table.specs.Slots.{slots};
ghost use Rattle.items.specs.Item.{item_of};
ghost use Rattle.item_table.specs.Table.{items_of, item_in};
ghost use Rattle.model.specs.State.{state_of, live_in, with_subscriptions};

use crate::state::EngineState;
use answers::fault::ServiceFault;
use items::fault::ItemFault;
use items::item::MonitoredItem;
use subscriptions::subscription::Subscription;

// The live subscription with this id.
pub fn find_live(state: &EngineState, id: u32) -> Option<Subscription>
    ensures { option_map figures_of result ≡ live_in id (slots state.now.subscriptions) }
{
    state
        .subscriptions
        .lookup(id)
        .filter(|subscription| subscription.is_live())
}

impl EngineState {
    // The live subscription with this id, or the fault that there is none.
    pub fn live_subscription(&self, id: u32) -> Result<Subscription, ServiceFault>
        ensures value { option_map figures_of (result_ok result) ≡ live_in id (slots self.now.subscriptions) }
        ensures fault { IfErr result (λ e. e ≡ ServiceFault.SubscriptionIdInvalid id) }
    {
        find_live(self, id).ok_or(ServiceFault::SubscriptionIdInvalid(id))
    }

    // The subscription's item with this id, or the fault that there is none. The two are two arguments here and in the calls, as
    // a client names them: a record would be made for one call and taken apart in it.
    pub fn item(&self, subscription: u32, id: u32) -> Result<MonitoredItem, ItemFault>
        ensures value { option_map item_of (result_ok result) ≡ item_in subscription id (items_of self.now.items) }
        ensures fault { IfErr result (λ e. e ≡ ItemFault.MonitoredItemIdInvalid id) }
    {
        self.items
            .find(subscription, id)
            .ok_or(ItemFault::MonitoredItemIdInvalid(id))
    }

    // A call named the subscription: its idle count is 0.
    pub fn reset_idle(&mut self, mut subscription: Subscription)
        ensures { state_of self.new ≡ with_subscriptions (state_of self.old) (replaced id_of (named subscription.figures) (slots self.old.subscriptions)) }
    {
        subscription.reset_idle();
        self.subscriptions.replace(subscription);
    }
}
