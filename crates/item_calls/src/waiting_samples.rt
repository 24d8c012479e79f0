ghost use Rattle.std.specs.Prelude.{◌≡◌};
ghost use Rattle.items.specs.Queue.{waiting_of};
ghost use Rattle.model.specs.State.{state_of};
ghost use Rattle.model.specs.Queries.{shown_by, samples_waiting};

use answers::fault::ServiceFault;
use items::waiting::WaitingQueue;
use model::state::EngineState;

// The waiting samples of an item, oldest first.
pub fn waiting_samples(
    state: &EngineState,
    subscription: u32,
    item: u32,
) -> Result<WaitingQueue, ServiceFault>
    ensures { shown_by waiting_of result ≡ samples_waiting (state_of state.now) subscription item }
{
    state.live_subscription(subscription)?;
    let found = state.item(subscription, item)?;
    Ok(found.queue)
}
