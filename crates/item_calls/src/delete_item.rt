ghost use Rattle.std.specs.Prelude.{◌≡◌};
ghost use Rattle.model.specs.State.{state_of};
ghost use Rattle.model.specs.Monitoring.{delete_item};

use answers::fault::ServiceFault;
use items::fault::ItemFault;
use model::state::EngineState;

// The item goes, with what waits of it.
pub fn delete_item(
    state: &mut EngineState,
    subscription: u32,
    item: u32,
) -> Result<(), ServiceFault>
    ensures after { state_of state.new ≡ (delete_item (state_of state.old) subscription item).state }
    ensures value { result ≡ (delete_item (state_of state.old) subscription item).answer }
{
    let owner = state.live_subscription(subscription)?;
    // Not by `EngineState::item`, whose `Result` holds the item, which is copied once more.
    if state.items.find(subscription, item).is_none() {
        return Err(ItemFault::MonitoredItemIdInvalid(item).into());
    }
    state.items.remove(item);
    state.reset_idle(owner);
    Ok(())
}
