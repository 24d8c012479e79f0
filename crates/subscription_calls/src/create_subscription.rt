ghost use Rattle.std.specs.Prelude.{◌≡◌};
ghost use Rattle.model.specs.State.{state_of};
ghost use Rattle.model.specs.Subscribing.{create_subscription};

use answers::fault::ServiceFault;
use model::revised::CreatedSubscription;
use model::state::EngineState;
use subscriptions::parameters::SubscriptionParameters;
use subscriptions::subscription::Subscription;

// A new subscription; returns its id and its revised parameters.
pub fn create_subscription(
    state: &mut EngineState,
    parameters: SubscriptionParameters,
    enabled: bool,
) -> Result<CreatedSubscription, ServiceFault>
    ensures after { state_of state.new ≡ (create_subscription (state_of state.old) parameters enabled).state }
    ensures value { result ≡ (create_subscription (state_of state.old) parameters enabled).answer }
{
    if state.subscriptions.is_full() {
        return Err(ServiceFault::TooManySubscriptions);
    }
    let id = u32::try_from(state.next_id).map_err(|_| ServiceFault::IdsUsedUp)?;
    let subscription = Subscription::new(id, parameters, enabled);
    state.next_id += 1;
    state.subscriptions.push(subscription);
    let _ = state.kept.open(id);
    Ok(CreatedSubscription {
        id,
        revised: subscription.figures.revised.answer(),
    })
}
