ghost use Rattle.std.specs.Prelude.{◌≡◌};
ghost use Rattle.numbers.specs.Items.{items};
ghost use Rattle.model.specs.State.{state_of};
ghost use Rattle.model.specs.Queries.{shown_by, numbers_kept};

use answers::fault::ServiceFault;
use model::live::find_live;
use model::state::EngineState;
use numbers::numbers::Numbers;

// The numbers of the messages kept of a live subscription, oldest first.
pub fn kept_numbers(state: &EngineState, subscription: u32) -> Result<Numbers, ServiceFault>
    ensures { shown_by items result ≡ numbers_kept (state_of state.now) subscription }
{
    // Not by `EngineState::live_subscription`, whose `Result` holds the record, which is copied once more.
    if find_live(state, subscription).is_none() {
        return Err(ServiceFault::SubscriptionIdInvalid(subscription));
    }
    Ok(state.kept.numbers(subscription))
}
