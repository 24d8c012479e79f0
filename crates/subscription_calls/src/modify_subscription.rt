ghost use Rattle.std.specs.Prelude.{◌≡◌};
ghost use Rattle.model.specs.State.{state_of};
ghost use Rattle.model.specs.Subscribing.{modify_subscription};

use answers::fault::ServiceFault;
use model::state::EngineState;
use subscriptions::parameters::{RevisedSubscription, SubscriptionParameters};

// Other parameters; returns the revised ones.
pub fn modify_subscription(
    state: &mut EngineState,
    id: u32,
    parameters: SubscriptionParameters,
) -> Result<RevisedSubscription, ServiceFault>
    ensures after { state_of state.new ≡ (modify_subscription (state_of state.old) id parameters).state }
    ensures value { result ≡ (modify_subscription (state_of state.old) id parameters).answer }
{
    let mut subscription = state.live_subscription(id)?;
    let revised = subscription.modify(parameters);
    state.subscriptions.replace(subscription);
    Ok(revised)
}
